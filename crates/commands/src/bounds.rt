//! The command `bounds`.
ghost use Rattle.std.specs.Prelude.{◌≡◌, ◌∷◌, [], IfOk, Some, None, string_bytes};
ghost use Rattle.checked_chart.specs.Kept.{chart_of};
ghost use Rattle.chart_tree.specs.declared.limits.TheConstants.{CHART_TEXT_LIMIT};
ghost use Rattle.commands.specs.Call.{sources_of, call_of, OthersStay};
ghost use Rattle.commands.specs.Reading.{FileGives};
ghost use Rattle.commands.specs.Bounds.{need_line, IsNeedLine, HasNeed, BoundsEnds};
ghost use Rattle.commands.specs.Accepted.{RefusesAccepted};

use crate::accepted_file::read_accepted;
use crate::file::FileEnd;
use crate::refusal::Refusal;
use crate::text::{TextEnd, write_made};
use bound_prove::{Need, bounds_of};
use checked_chart::Chart;
use flow_base::{Inputs, Memory, Sink};
use std::alloc::Global;

/// Writes the bounds that no event of the accepted chart that the file holds can overrun, or that a
/// certificate gives none.
pub fn bound_chart<I: Inputs, O: Sink>(
    alloc: Global,
    chart_file: &str,
    inputs: &mut I,
    out: &mut O,
) -> TextEnd<Refusal>
    ensures ends { BoundsEnds (call_of I.Inputs O.Sink inputs.old inputs.new out.old out.new)
        chart_file.now result }
    ensures others { OthersStay (chart_file.now ∷ [])
        (sources_of I.Inputs inputs.old) (sources_of I.Inputs inputs.new) }
{
    let line = read_need(alloc, inputs, chart_file);
    write_made(line, out)
}

/// The line of the need of the accepted chart that the file of that name holds.
fn read_need<I: Inputs>(
    alloc: Global,
    inputs: &mut I,
    chart_file: &str,
) -> Result<String, FileEnd<Refusal>>
    ensures { FileGives CHART_TEXT_LIMIT (λ text line. HasNeed text (string_bytes line))
        RefusesAccepted (sources_of I.Inputs inputs.old) (sources_of I.Inputs inputs.new)
        chart_file.now result }
{
    let chart = read_accepted(alloc, inputs, chart_file)?;
    match line_of_need(alloc, &chart) {
        Ok(line) => Ok(line),
        Err(Memory) => Err(FileEnd::Memory),
    }
}

/// The line of the need of a chart.
fn line_of_need(alloc: Global, chart: &Chart) -> Result<String, Memory>
    ensures { IfOk result (λ line. IsNeedLine (chart_of chart.now) (string_bytes line)) }
{
    let need = bounds_of(alloc, chart)?;
    need_line(alloc, need)
}

/// The line that `bounds` writes of a need.
fn need_line(alloc: Global, need: Option<Need>) -> Result<String, Memory>
    ensures { IfOk result (λ line. string_bytes line ≡ need_line need) }
{
    match need {
        Some(need) => bounds_line(alloc, need),
        None => no_bounds_line(alloc),
    }
}

/// The line of a chart with bounds.
fn bounds_line(alloc: Global, need: Need) -> Result<String, Memory>
    ensures { IfOk result (λ line. string_bytes line ≡ need_line (Some need)) }
{
    let Need { depth, steps } = need;
    Ok(format!(in alloc; "depth {depth} steps {steps}\n")?)
}

/// The line of a chart without bounds.
fn no_bounds_line(alloc: Global) -> Result<String, Memory>
    ensures { IfOk result (λ line. string_bytes line ≡ need_line None) }
{
    Ok(format!(in alloc; "no bounds\n")?)
}
