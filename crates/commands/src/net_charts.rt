//! The charts of a net, read from their files.
ghost use Rattle.std.specs.Prelude.{◌≡◌, ◌<◌, IfOk, IfSome, length, option_map};
ghost use Rattle.std.specs.List.{position};
ghost use Rattle.std.specs.Str.{bytes_eq};
ghost use Rattle.checked_chart.specs.Kept.{chart_of};
ghost use Rattle.commands.specs.Call.{sources_of};
ghost use Rattle.commands.specs.NetCharts as spec;
ghost use Rattle.commands.specs.NetFiles.{FileAdded, FileRead, FileTaken};
ghost use Rattle.commands.specs.declared.net_charts.ReadFile.{ReadFile as ReadFileShown};

use crate::accepted_file::read_accepted;
use crate::file::FileEnd;
use crate::refusal::Refusal;
use checked_chart::Chart;
use flow_base::{Inputs, Memory, Text};
use net_text::NetChart;
use std::alloc::Global;

/// A file that was read, and the chart of its text.
#[derive(Drop)]
pub(crate) struct ReadFile {
    /// Its name.
    pub file: Text,
    /// The chart of its text.
    pub chart: Chart,
}

/// A chart of whose file nothing comes, by its number, and why.
#[derive(Clone, Copy)]
pub(crate) struct UnreadChart {
    /// The number of the chart.
    pub number: usize,
    /// Why nothing comes of its file.
    pub end: FileEnd<Refusal>,
}

/// Reads the files of charts in order, each file once, as the texts of charts that are accepted.
pub(crate) fn read_charts<I: Inputs>(
    alloc: Global,
    inputs: &mut I,
    charts: &[NetChart],
) -> Result<Vec<ReadFile>, UnreadChart>
    ensures { spec.ChartsRead (sources_of I.Inputs inputs.old) (sources_of I.Inputs inputs.new)
        charts.now result }
{
    let mut files = Vec::new(alloc);
    'charts: for number in 0..charts.len() {
        let file = charts[number].file.text();
        match take_file(alloc, inputs, file, &mut files) {
            Ok(()) => {}
            Err(end) => return Err(UnreadChart { number, end }),
        }
    }
    Ok(files)
}

/// Reads the file of that name, unless it was read before.
fn take_file<I: Inputs>(
    alloc: Global,
    inputs: &mut I,
    chart_file: &str,
    files: &mut Vec<ReadFile>,
) -> Result<(), FileEnd<Refusal>>
    ensures { FileTaken (sources_of I.Inputs inputs.old) (sources_of I.Inputs inputs.new)
        chart_file.now files.old.items files.new.items result }
{
    match chart_of_file(files, chart_file) {
        Some(_) => Ok(()),
        None => add_file(alloc, inputs, chart_file, files),
    }
}

/// Reads the file of that name, and puts it after the others.
fn add_file<I: Inputs>(
    alloc: Global,
    inputs: &mut I,
    chart_file: &str,
    files: &mut Vec<ReadFile>,
) -> Result<(), FileEnd<Refusal>>
    ensures { FileAdded (sources_of I.Inputs inputs.old) (sources_of I.Inputs inputs.new)
        chart_file.now files.old.items files.new.items result }
{
    let file = read_file(alloc, inputs, chart_file)?;
    let Ok(()) = files.push(file) else {
        return Err(FileEnd::Memory);
    };
    Ok(())
}

/// Reads the file of that name as the text of a chart that is accepted.
fn read_file<I: Inputs>(
    alloc: Global,
    inputs: &mut I,
    chart_file: &str,
) -> Result<ReadFile, FileEnd<Refusal>>
    ensures { FileRead (sources_of I.Inputs inputs.old) (sources_of I.Inputs inputs.new)
        chart_file.now result }
{
    let chart = read_accepted(alloc, inputs, chart_file)?;
    match copy_text(alloc, chart_file) {
        Ok(file) => Ok(ReadFile { file, chart }),
        Err(Memory) => Err(FileEnd::Memory),
    }
}

/// A text with these bytes.
pub(crate) fn copy_text(alloc: Global, text: &str) -> Result<Text, Memory>
    ensures { IfOk result (λ copy. copy ≡ text.now) }
{
    let text = String::from_str(alloc, text)?;
    Ok(Text::of(text))
}

/// The chart of the file of that name, if the file was read.
pub(crate) fn chart_of_file<'a>(files: &'a [ReadFile], chart_file: &str) -> Option<&'a Chart>
    ensures { option_map (λ chart. chart_of chart.now) result
        ≡ spec.chart_in files.now chart_file.now }
{
    let place = place_of_file(files, chart_file)?;
    Some(&files[place].chart)
}

/// The place of the file of that name.
fn place_of_file(files: &[ReadFile], chart_file: &str) -> Option<usize>
    ensures place { result
        ≡ position (λ (f : ReadFileShown). bytes_eq f.file chart_file.now) files.now }
    ensures within { IfSome result (λ n. n < length files.now) }
{
    files.iter().position(|file| is_named(file, chart_file))
}

/// Whether a file has that name.
fn is_named(file: &ReadFile, chart_file: &str) -> bool
    ensures { result ≡ bytes_eq file.now.file chart_file.now }
{
    file.file.text() == chart_file
}

/// The chart of that number, if its file was read.
pub(crate) fn chart_numbered<'a>(
    charts: &[NetChart],
    files: &'a [ReadFile],
    number: u32,
) -> Option<&'a Chart>
    ensures { option_map (λ chart. chart_of chart.now) result
        ≡ spec.chart_numbered charts.now files.now number }
{
    let chart = charts.get(number as usize)?;
    chart_of_file(files, chart.file.text())
}
