//! The command `rules`.
ghost use Rattle.std.specs.Prelude.{◌∷◌, []};
ghost use Rattle.checked_chart.specs.Kept.{chart_of};
ghost use Rattle.commands.specs.Call.{sources_of, call_of, OthersStay};
ghost use Rattle.commands.specs.Trace.{TraceEnds};
ghost use Rattle.commands.specs.Rules.{by_rules, RulesEnds};

use crate::accepted_file::read_accepted;
use crate::file::FileEnd;
use crate::refusal::Refusal;
use crate::traced::{TraceEnd, trace};
use checked_chart::Chart;
use flow_base::{Bounds, Inputs, Sink};
use sos_interpreter::Rules;
use std::alloc::Global;

/// How `rules` ends.
#[derive(Drop)]
pub enum RulesEnd {
    /// Nothing comes of the file of the chart.
    NoChart(FileEnd<Refusal>),
    /// The chart ran.
    Ran(TraceEnd),
}

/// Runs the chart of the first file by the rules over the events of the second, with these bounds,
/// and writes the trace.
pub fn run_chart<I: Inputs, O: Sink>(
    alloc: Global,
    chart_file: &str,
    event_file: &str,
    bounds: Bounds,
    inputs: &mut I,
    out: &mut O,
) -> RulesEnd
    ensures ends { RulesEnds bounds (call_of I.Inputs O.Sink inputs.old inputs.new out.old out.new)
        chart_file.now event_file.now result }
    ensures others { OthersStay (chart_file.now ∷ event_file.now ∷ [])
        (sources_of I.Inputs inputs.old) (sources_of I.Inputs inputs.new) }
{
    let chart = match read_accepted(alloc, inputs, chart_file) {
        Ok(chart) => chart,
        Err(end) => return RulesEnd::NoChart(end),
    };
    RulesEnd::Ran(run_rules(alloc, chart, bounds, event_file, inputs, out))
}

/// Runs the chart by the rules, with these bounds, over the events of the file of that name, and
/// writes the trace.
fn run_rules<I: Inputs, O: Sink>(
    alloc: Global,
    chart: Chart,
    bounds: Bounds,
    event_file: &str,
    inputs: &mut I,
    out: &mut O,
) -> TraceEnd
    ensures { TraceEnds (by_rules (chart_of chart) bounds)
        (call_of I.Inputs O.Sink inputs.old inputs.new out.old out.new) event_file.now result }
{
    // Only the proof reads the names: the chart is valid.
    let _ = chart.names();
    let Ok(mut rules) = Rules::make(alloc, chart, bounds) else {
        return TraceEnd::Memory;
    };
    trace(alloc, &mut rules, event_file, inputs, out)
}
