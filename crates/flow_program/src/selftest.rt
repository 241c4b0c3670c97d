//! The command `selftest`.
ghost use Rattle.std.specs.Prelude.{◌≡◌, IfOk, string_bytes};
ghost use Rattle.commands.specs.Call.{output_of};
ghost use Rattle.flow_program.specs.CaseLine.{line_of_measures, result_of};
ghost use Rattle.flow_program.specs.Selftest.{SelftestEnds, end_of};

use crate::measure::{EndFault, Measures, measured};
use accepted_charts::accept_chart;
use chart_gen::make_case;
use chart_tree::FormFault;
use commands::{FaultWord, Refusal};
use flow_base::{Bounds, Memory, Sink, write_all};
use std::alloc::Global;

/// How `selftest` ends.
#[derive(Drop)]
pub enum SelftestEnd {
    /// The line was written, and the run has no fault.
    Done,
    /// The line was written, and the run has the fault of that word at that index.
    Fault(u64, FaultWord),
    /// The chart text of the case is refused, for that reason.
    NoChart(Refusal),
    /// The line couldn't be written.
    Write,
    /// Memory ran out, before anything was written.
    Memory,
}

/// Makes case `n`, runs its chart over its events with the default bounds, by the rules and as
/// code, and writes one line: the number of the case, its states with the root, the events that
/// ran, the length of the trace and the result in its last line.
pub fn selftest<O: Sink>(alloc: Global, n: u32, out: &mut O) -> SelftestEnd
    ensures { SelftestEnds n (output_of O.Sink out.old) (output_of O.Sink out.new) result }
{
    let Ok(case) = make_case(alloc, n) else {
        return SelftestEnd::Memory;
    };
    let chart = match accept_chart(alloc, case.chart().as_bytes()) {
        Ok(chart) => chart,
        Err(FormFault::At(kind, at)) => return SelftestEnd::NoChart(Refusal { kind, at }),
        Err(FormFault::Memory) => return SelftestEnd::Memory,
    };
    let states = chart.shape().len();
    let Ok(measures) = measured(alloc, chart, Bounds::usual(), case.events()) else {
        return SelftestEnd::Memory;
    };
    let Ok(line) = line_of(alloc, n, states, &measures) else {
        return SelftestEnd::Memory;
    };
    match write_all(out, line.as_bytes()) {
        Ok(()) => end_of(measures.fault),
        Err(_) => SelftestEnd::Write,
    }
}

/// The line that is written of a case with so many states and these measures.
fn line_of(alloc: Global, n: u32, states: u32, measures: &Measures) -> Result<String, Memory>
    ensures { IfOk result (λ line. string_bytes line ≡ line_of_measures n states measures.now) }
{
    let events = measures.events;
    let trace_bytes = measures.trace_bytes;
    let result = result_of(&measures.fault);
    let line = format!(in alloc;
        "selftest {n}: {states} states, {events} events, {trace_bytes} trace bytes, {result}\n"
    )?;
    Ok(line)
}

/// The result in the last line of a trace, by the fault that ended the run.
fn result_of(fault: &Option<EndFault>) -> &str
    ensures { result.now ≡ result_of fault.now }
{
    match fault {
        None => "ok",
        Some(fault) => fault.word.text(),
    }
}

/// The ending of a run whose line was written, by the fault that ended it.
fn end_of(fault: Option<EndFault>) -> SelftestEnd
    ensures { result ≡ end_of fault }
{
    match fault {
        None => SelftestEnd::Done,
        Some(fault) => SelftestEnd::Fault(fault.index, fault.word),
    }
}
