//! A run over the events of a text, of which the counts of its trace are kept and how it ended.
ghost use Rattle.std.specs.Prelude.{◌≡◌, ◌≢◌, ◌≤◌, ◌↔◌, [], Some, IfOk, OnOk, IsTrue, true};
ghost use Rattle.checked_chart.specs.Kept.{chart_of};
ghost use Rattle.commands.specs.Call.{call_of};
ghost use Rattle.commands.specs.Trace.{TraceEnds};
ghost use Rattle.commands.specs.Rules.{by_rules};
ghost use Rattle.flow_program.specs.Measures as spec;
ghost use Rattle.flow_program.specs.Newlines.{newlines};

use crate::trace_bytes::TraceBytes;
use checked_chart::Chart;
use commands::{FaultWord, TraceEnd, run_printed, trace};
use flow_base::{Bounds, Inputs, MemFile, Memory, Sink, SureInputs};
use sos_interpreter::Rules;
use std::alloc::{AllocError, Global};

/// The fault that ended a run: the index of its event, and its word in the trace.
#[derive(Drop)]
pub(crate) struct EndFault {
    pub(crate) index: u64,
    pub(crate) word: FaultWord,
}

/// What is measured of a run.
#[derive(Drop)]
pub(crate) struct Measures {
    /// How many events ran.
    pub(crate) events: usize,
    /// How many bytes the trace has.
    pub(crate) trace_bytes: usize,
    /// The fault that ended the run.
    pub(crate) fault: Option<EndFault>,
}

/// The greatest number of bytes that one read gives.
const PIECE_SIZE: usize = 4_096;

/// Runs a chart over the events of a text, each with these bounds, and measures the run: as code
/// that is printed and read again, and by the rules. Both runs have the same measures.
pub(crate) fn measured(
    alloc: Global,
    chart: Chart,
    bounds: Bounds,
    events: &str,
) -> Result<Measures, Memory>
    ensures { IfOk result (spec.HasMeasures (chart_of chart) bounds events.now) }
{
    let compiled = measured_code(alloc, &chart, bounds, events)?;
    let measures = measured_rules(alloc, chart, bounds, events)?;
    if !are_same(&measures, &compiled) {
        // The code of a chart runs as the chart does.
        unreachable!();
    }
    Ok(measures)
}

/// Runs the printed code of a chart, and measures the run.
fn measured_code(
    alloc: Global,
    chart: &Chart,
    bounds: Bounds,
    events: &str,
) -> Result<Measures, Memory>
    ensures { IfOk result (spec.HasMeasures (chart_of chart.now) bounds events.now) }
{
    // Only the proof reads the names: the chart is valid.
    let _ = chart.names();
    let mut inputs = file_of(alloc, events)?;
    let mut out = TraceBytes::new(alloc);
    let end = run_printed(alloc, chart, bounds, "", &mut inputs, &mut out);
    measures_of(end, &out)
}

/// Runs a chart by the rules, and measures the run.
fn measured_rules(
    alloc: Global,
    chart: Chart,
    bounds: Bounds,
    events: &str,
) -> Result<Measures, Memory>
    ensures { IfOk result (spec.HasMeasures (chart_of chart) bounds events.now) }
{
    // Only the proof reads the names: the chart is valid.
    let _ = chart.names();
    let mut inputs = file_of(alloc, events)?;
    let mut out = TraceBytes::new(alloc);
    let end = run_rules(alloc, chart, bounds, &mut inputs, &mut out);
    measures_of(end, &out)
}

/// A file in memory that has the empty name and this text.
fn file_of(alloc: Global, text: &str) -> Result<SureInputs, AllocError>
    ensures { IfOk result (λ inputs. ⟦<SureInputs as Inputs>⟧.left inputs [] ≡ Some text.now) }
{
    let mut bytes = Vec::new(alloc);
    bytes.extend_from_slice(text.as_bytes())?;
    let file = MemFile::new(String::new(alloc), bytes, PIECE_SIZE, Vec::new(alloc));
    let mut files = Vec::new(alloc);
    files.push(file)?;
    Ok(SureInputs::new(files))
}

/// Runs a chart by the rules over the events of the file with the empty name.
fn run_rules(
    alloc: Global,
    chart: Chart,
    bounds: Bounds,
    inputs: &mut SureInputs,
    out: &mut TraceBytes,
) -> TraceEnd
    ensures { TraceEnds (by_rules (chart_of chart) bounds)
        (call_of ⟦<SureInputs as Inputs>⟧ ⟦<TraceBytes as Sink>⟧
        inputs.old inputs.new out.old out.new)
        [] result }
{
    // Only the proof reads the names: the chart is valid.
    let _ = chart.names();
    let Ok(mut rules) = Rules::make(alloc, chart, bounds) else {
        return TraceEnd::Memory;
    };
    trace(alloc, &mut rules, "", inputs, out)
}

/// What is measured of a run by its kept trace and its ending.
fn measures_of(end: TraceEnd, out: &TraceBytes) -> Result<Measures, Memory>
    requires read { end ≢ TraceEnd.Read }
    requires begun { spec.is_whole end ≡ true → 1 ≤ newlines out.now.bytes.items }
    ensures whole { OnOk result (spec.is_whole end ≡ true) }
    ensures counts { IfOk result (spec.AreCounts out.now.bytes.items end) }
{
    let fault = fault_of(end)?;
    Ok(Measures {
        events: out.newlines() - 1,
        trace_bytes: out.len(),
        fault,
    })
}

/// The fault of a run whose whole trace was kept.
fn fault_of(end: TraceEnd) -> Result<Option<EndFault>, Memory>
    requires { end ≢ TraceEnd.Read }
    ensures fault { IfOk result (λ fault. fault ≡ spec.fault_of_end end) }
    ensures whole { OnOk result (spec.is_whole end ≡ true) }
{
    match end {
        TraceEnd::Done | TraceEnd::Line(..) | TraceEnd::TooManyLines | TraceEnd::FileTooLong => {
            Ok(None)
        }
        TraceEnd::Fault(index, word) => Ok(Some(EndFault { index, word })),
        TraceEnd::Read => unreachable!(),
        TraceEnd::Write | TraceEnd::Memory => Err(Memory),
    }
}

/// Whether two runs have the same measures.
fn are_same(one: &Measures, other: &Measures) -> bool
    ensures { IsTrue result ↔ (one.now ≡ other.now) }
{
    one.events == other.events
        && one.trace_bytes == other.trace_bytes
        && have_same_fault(&one.fault, &other.fault)
}

/// Whether two runs ended in the same fault.
fn have_same_fault(one: &Option<EndFault>, other: &Option<EndFault>) -> bool
    ensures { IsTrue result ↔ (one.now ≡ other.now) }
{
    match (one, other) {
        (None, None) => true,
        (Some(one), Some(other)) => {
            one.index == other.index && one.word.text() == other.word.text()
        }
        (None, Some(_)) | (Some(_), None) => false,
    }
}
