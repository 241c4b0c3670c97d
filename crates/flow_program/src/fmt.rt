//! The command `fmt`.
ghost use Rattle.std.specs.Prelude.{◌∷◌, [], string_bytes};
ghost use Rattle.chart_format.specs.Text.{IsFormatted};
ghost use Rattle.commands.specs.Call.{sources_of, call_of, OthersStay};
ghost use Rattle.commands.specs.Reading.{FileGives};
ghost use Rattle.flow_program.specs.Fmt.{FmtEnds};
ghost use Rattle.flow_program.specs.Refusals.{RefusesChart};

use chart_format::format_text;
use chart_tree::CHART_TEXT_LIMIT;
use commands::{FileEnd, Refusal, TOO_LONG, TextEnd, end_of_fault, read_text, write_made};
use flow_base::{Inputs, Sink};
use std::alloc::Global;

/// Writes the canonical text of the chart that the file holds.
pub fn format_chart<I: Inputs, O: Sink>(
    alloc: Global,
    chart_file: &str,
    inputs: &mut I,
    out: &mut O,
) -> TextEnd<Refusal>
    ensures ends { FmtEnds (call_of I.Inputs O.Sink inputs.old inputs.new out.old out.new)
        chart_file.now result }
    ensures others { OthersStay (chart_file.now ∷ [])
        (sources_of I.Inputs inputs.old) (sources_of I.Inputs inputs.new) }
{
    let canonical = read_formatted(alloc, inputs, chart_file);
    write_made(canonical, out)
}

/// The canonical text of the chart that the file of that name holds.
fn read_formatted<I: Inputs>(
    alloc: Global,
    inputs: &mut I,
    chart_file: &str,
) -> Result<String, FileEnd<Refusal>>
    ensures { FileGives CHART_TEXT_LIMIT (λ text canonical. IsFormatted text (string_bytes canonical))
        RefusesChart (sources_of I.Inputs inputs.old) (sources_of I.Inputs inputs.new)
        chart_file.now result }
{
    let text = read_text(alloc, inputs, chart_file, CHART_TEXT_LIMIT, TOO_LONG)?;
    match format_text(alloc, &text) {
        Ok(canonical) => Ok(canonical),
        Err(fault) => Err(end_of_fault(fault)),
    }
}
