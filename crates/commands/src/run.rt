//! The command `run`.
ghost use Rattle.std.specs.Prelude.{◌≡◌, ◌∷◌, [], IfOk};
ghost use Rattle.checked_chart.specs.Kept.{chart_of};
ghost use Rattle.code_language.specs.Code.{code_of};
ghost use Rattle.chart_code.specs.Bodies.{code_of_chart};
ghost use Rattle.commands.specs.Call.{sources_of, call_of, OthersStay};
ghost use Rattle.commands.specs.Trace.{TraceEnds};
ghost use Rattle.commands.specs.Run.{by_compiled, RunEnds};

use crate::accepted_file::read_accepted;
use crate::compile::compiled_text;
use crate::exec::run_code;
use crate::file::FileEnd;
use crate::refusal::Refusal;
use crate::traced::TraceEnd;
use checked_chart::Chart;
use code_language::Code;
use code_text::{CodeTextFault, read_code};
use flow_base::{Bounds, Inputs, Memory, Sink};
use std::alloc::Global;

/// How `run` ends.
#[derive(Drop)]
pub enum RunEnd {
    /// Nothing comes of the file of the chart.
    NoChart(FileEnd<Refusal>),
    /// The chart was compiled, and its code ran.
    Ran(TraceEnd),
}

/// Compiles the chart of the first file, prints its code, reads the printed text again, runs that
/// on the machine over the events of the second file, with these bounds, and writes the trace. All
/// memory is taken before the first byte of the trace is written.
pub fn run_compiled<I: Inputs, O: Sink>(
    alloc: Global,
    chart_file: &str,
    event_file: &str,
    bounds: Bounds,
    inputs: &mut I,
    out: &mut O,
) -> RunEnd
    ensures ends { RunEnds bounds (call_of I.Inputs O.Sink inputs.old inputs.new out.old out.new)
        chart_file.now event_file.now result }
    ensures others { OthersStay (chart_file.now ∷ event_file.now ∷ [])
        (sources_of I.Inputs inputs.old) (sources_of I.Inputs inputs.new) }
{
    let chart = match read_accepted(alloc, inputs, chart_file) {
        Ok(chart) => chart,
        Err(end) => return RunEnd::NoChart(end),
    };
    RunEnd::Ran(run_printed(alloc, &chart, bounds, event_file, inputs, out))
}

/// Runs the printed code of a chart, with these bounds, over the events of the file of that name,
/// and writes the trace.
pub fn run_printed<I: Inputs, O: Sink>(
    alloc: Global,
    chart: &Chart,
    bounds: Bounds,
    event_file: &str,
    inputs: &mut I,
    out: &mut O,
) -> TraceEnd
    ensures { TraceEnds (by_compiled (chart_of chart.now) bounds)
        (call_of I.Inputs O.Sink inputs.old inputs.new out.old out.new) event_file.now result }
{
    // Only the proof reads the shape: the chart is valid.
    let _shape = chart.shape();
    let Ok(code) = printed(alloc, chart) else {
        return TraceEnd::Memory;
    };
    run_code(alloc, code, bounds, event_file, inputs, out)
}

/// The code of a chart, printed and read again.
pub(crate) fn printed(alloc: Global, chart: &Chart) -> Result<Code, Memory>
    ensures { IfOk result (λ code. code_of code ≡ code_of_chart (chart_of chart.now)) }
{
    let text = compiled_text(alloc, chart)?;
    match read_code(alloc, text.as_bytes()) {
        Ok(code) => Ok(code),
        Err(CodeTextFault::Memory) => Err(Memory),
        // The text of a chart's code is read.
        Err(_) => unreachable!(),
    }
}
