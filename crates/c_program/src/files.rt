//! The commands `header` and `source`: one of the two files of a chart's C.
ghost use Rattle.std.specs.Prelude.{◌≡◌, ◌∷◌, [], take, IfOk, IfErr, string_bytes};
ghost use Rattle.md5.specs.Md5.{md5};
ghost use Rattle.chart_tree.specs.declared.limits.TheConstants.{CHART_TEXT_LIMIT};
ghost use Rattle.checked_chart.specs.Kept.{chart_of};
ghost use Rattle.accepted_charts.specs.Accepted.{Refuses};
ghost use Rattle.commands.specs.Accepted.{RefusesAccepted};
ghost use Rattle.commands.specs.Call.{OthersStay, call_of, sources_of};
ghost use Rattle.commands.specs.Reading.{FileGives};
ghost use Rattle.c_program.specs.Seen.{asked_seen};
ghost use Rattle.c_program.specs.Texts as spec;
ghost use Rattle.c_program.specs.Texts.{FileEnds, HasC, IsOfC, IsSummed, sum_of};

use crate::bounds::bounds_for;
use accepted_charts::accept_chart;
use c_file::{CFiles, files};
use c_header::Identity;
use chart_format::format_text;
use chart_tree::{CHART_TEXT_LIMIT, FormFault};
use checked_chart::Chart;
use commands::{FileEnd, Refusal, TOO_LONG, TextEnd, end_of_fault, read_text, write_made};
use flow_base::{Bounds, Inputs, Memory, Sink};
use md5::{Digest, Md5};
use std::alloc::Global;

/// Which of the two files of a chart's C.
#[derive(Clone, Copy)]
pub enum CFile {
    /// The header.
    Header,
    /// The source.
    Source,
}

/// An accepted chart, and the first 64 bits of the MD5 of its canonical text.
#[derive(Drop)]
struct Summed {
    chart: Chart,
    sum: [u8; 8],
}

/// Writes that file of the C of the accepted chart that the file holds, under the bounds that are
/// asked for or that the chart gives.
pub fn write_file<I: Inputs, O: Sink>(
    alloc: Global,
    file: CFile,
    first: &str,
    asked: Option<Bounds>,
    inputs: &mut I,
    out: &mut O,
) -> TextEnd<Refusal>
    ensures ends { FileEnds file (asked_seen asked)
        (call_of I.Inputs O.Sink inputs.old inputs.new out.old out.new) first.now result }
    ensures others { OthersStay (first.now ∷ [])
        (sources_of I.Inputs inputs.old) (sources_of I.Inputs inputs.new) }
{
    let text = read_file(alloc, file, inputs, first, asked);
    write_made(text, out)
}

/// That file of the C of the accepted chart of the file of that name.
fn read_file<I: Inputs>(
    alloc: Global,
    file: CFile,
    inputs: &mut I,
    name: &str,
    asked: Option<Bounds>,
) -> Result<String, FileEnd<Refusal>>
    ensures { FileGives CHART_TEXT_LIMIT
        (λ text made. HasC file (asked_seen asked) text (string_bytes made))
        RefusesAccepted (sources_of I.Inputs inputs.old) (sources_of I.Inputs inputs.new)
        name.now result }
{
    let summed = read_summed(alloc, inputs, name)?;
    match file_of(alloc, file, &summed, asked) {
        Ok(text) => Ok(text),
        Err(Memory) => Err(FileEnd::Memory),
    }
}

/// The accepted chart of the file of that name, with its sum.
fn read_summed<I: Inputs>(
    alloc: Global,
    inputs: &mut I,
    name: &str,
) -> Result<Summed, FileEnd<Refusal>>
    ensures { FileGives CHART_TEXT_LIMIT
        (λ text summed. IsSummed text (chart_of summed.chart) summed.sum)
        RefusesAccepted (sources_of I.Inputs inputs.old) (sources_of I.Inputs inputs.new)
        name.now result }
{
    let text = read_text(alloc, inputs, name, CHART_TEXT_LIMIT, TOO_LONG)?;
    match summed_text(alloc, &text) {
        Ok(summed) => Ok(summed),
        Err(fault) => Err(end_of_fault(fault)),
    }
}

/// The chart of a text, with its sum. A text that is accepted is formatted unless memory runs out,
/// as `format_text` ensures.
fn summed_text(alloc: Global, text: &[u8]) -> Result<Summed, FormFault>
    ensures summed { IfOk result (λ summed. IsSummed text.now (chart_of summed.chart) summed.sum) }
    ensures refused { IfErr result (Refuses text.now) }
{
    let chart = accept_chart(alloc, text)?;
    match format_text(alloc, text) {
        Ok(canonical) => Ok(Summed {
            chart,
            sum: sum(canonical.as_bytes()),
        }),
        Err(_) => Err(FormFault::Memory),
    }
}

/// The first 64 bits of the MD5 of a canonical text.
fn sum(canonical: &[u8]) -> [u8; 8]
    ensures { result ≡ sum_of canonical.now }
{
    let digest = Md5::digest(canonical);
    let [a, b, c, d, e, f, g, h, _, _, _, _, _, _, _, _] = digest;
    [a, b, c, d, e, f, g, h]
}

/// That file of a chart's C.
fn file_of(
    alloc: Global,
    file: CFile,
    summed: &Summed,
    asked: Option<Bounds>,
) -> Result<String, Memory>
    ensures { IfOk result (λ text. IsOfC file (asked_seen asked) (chart_of summed.now.chart)
        summed.now.sum (string_bytes text)) }
{
    let bounds = bounds_for(alloc, &summed.chart, asked)?;
    let identity = Identity {
        bounds,
        sum: summed.sum,
    };
    let made = files(alloc, &summed.chart, identity)?;
    Ok(chosen(file, made))
}

/// That one of both files.
fn chosen(file: CFile, made: CFiles) -> String
    ensures { result ≡ spec.chosen file made }
{
    match file {
        CFile::Header => made.header,
        CFile::Source => made.source,
    }
}
