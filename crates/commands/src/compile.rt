//! The command `compile`.
ghost use Rattle.std.specs.Prelude.{◌∷◌, [], IfOk, string_bytes};
ghost use Rattle.chart_tree.specs.declared.limits.TheConstants.{CHART_TEXT_LIMIT};
ghost use Rattle.checked_chart.specs.Kept.{chart_of};
ghost use Rattle.commands.specs.Call.{sources_of, call_of, OthersStay};
ghost use Rattle.commands.specs.Reading.{FileGives};
ghost use Rattle.commands.specs.Accepted.{RefusesAccepted};
ghost use Rattle.commands.specs.Compile.{IsCompiled, Compiles, CompileEnds};

use crate::accepted_file::read_accepted;
use crate::file::FileEnd;
use crate::refusal::Refusal;
use crate::text::{TextEnd, write_made};
use chart_compile::compile;
use checked_chart::Chart;
use code_text::print_code;
use flow_base::{Inputs, Memory, Sink};
use std::alloc::Global;

/// Compiles the accepted chart that the file holds, and writes the text of its code in format 2.
pub fn compile_chart<I: Inputs, O: Sink>(
    alloc: Global,
    chart_file: &str,
    inputs: &mut I,
    out: &mut O,
) -> TextEnd<Refusal>
    ensures ends { CompileEnds (call_of I.Inputs O.Sink inputs.old inputs.new out.old out.new)
        chart_file.now result }
    ensures others { OthersStay (chart_file.now ∷ [])
        (sources_of I.Inputs inputs.old) (sources_of I.Inputs inputs.new) }
{
    let text = read_compiled(alloc, inputs, chart_file);
    write_made(text, out)
}

/// The text of the code to which the accepted chart of the file of that name is compiled.
fn read_compiled<I: Inputs>(
    alloc: Global,
    inputs: &mut I,
    chart_file: &str,
) -> Result<String, FileEnd<Refusal>>
    ensures { FileGives CHART_TEXT_LIMIT (λ text compiled. Compiles text (string_bytes compiled))
        RefusesAccepted (sources_of I.Inputs inputs.old) (sources_of I.Inputs inputs.new)
        chart_file.now result }
{
    let chart = read_accepted(alloc, inputs, chart_file)?;
    match compiled_text(alloc, &chart) {
        Ok(text) => Ok(text),
        Err(Memory) => Err(FileEnd::Memory),
    }
}

/// The text of the code to which a chart is compiled.
pub fn compiled_text(alloc: Global, chart: &Chart) -> Result<String, Memory>
    ensures { IfOk result (λ text. IsCompiled (chart_of chart.now) (string_bytes text)) }
{
    // Only the proof reads the shape: the chart is valid.
    let _shape = chart.shape();
    let code = compile(alloc, chart)?;
    // Only the proof reads the code: it is well formed.
    let _raw = code.raw();
    let text = print_code(alloc, &code)?;
    Ok(text)
}
