//! A run over an event file, and its trace.
ghost use Rattle.std.specs.Prelude.{◌≡◌, ◌<◌, ◌^◌, length};
ghost use Rattle.actions.specs.Engines.{Fresh};
ghost use Rattle.actions.specs.Names.{names_of};
ghost use Rattle.commands.specs.Call.{call_of};
ghost use Rattle.commands.specs.Trace as spec;

use crate::fault_word::FaultWord;
use actions::{Engine, Names};
use event_file::{InputVals, LineFault, LineReader};
use flow_base::{Inputs, Sink};
use std::alloc::Global;
use step_driver::{DriveEnd, drive};

/// How a run over an event file ends, whose trace is written.
#[derive(Drop)]
pub enum TraceEnd {
    /// The file was read to its end, and the whole trace was written.
    Done,
    /// The line of that number, counted from 1, is refused. The trace of the events before it was
    /// written.
    Line(u64, LineFault),
    /// The file has more events than it may. The trace of the first ones was written.
    TooManyLines,
    /// The file has more bytes than it may. The trace of the events before the line that holds the
    /// first byte too many was written.
    FileTooLong,
    /// The run has the fault of that word at that index. The line of the trace that tells it was
    /// written.
    Fault(u64, FaultWord),
    /// The event file couldn't be read.
    Read,
    /// The trace couldn't be written.
    Write,
    /// Memory ran out: before anything was read or written, or where the engine wanted it.
    Memory,
}

/// Runs an engine over the events of the file of that name, and writes the trace.
///
/// Nothing is said of the engine afterwards.
pub fn trace<G: Engine, I: Inputs, O: Sink>(
    alloc: Global,
    engine: &mut G,
    event_file: &str,
    inputs: &mut I,
    out: &mut O,
) -> TraceEnd
    requires fresh { G.stage engine.old ≡ Fresh }
    requires few_events { length (G.declared (G.program engine.old)).events < 2 ^ 32 }
    requires few_data { length (G.declared (G.program engine.old)).vars < 2 ^ 32 }
    requires short { spec.HasShortNames (G.declared (G.program engine.old)) }
    ensures { spec.TraceEnds (spec.behaviour_of G.Engine (G.program engine.old))
        (call_of I.Inputs O.Sink inputs.old inputs.new out.old out.new) event_file.now result }
{
    let Ok(mut lines) = LineReader::make(alloc) else {
        return TraceEnd::Memory;
    };
    let Ok(mut vals) = InputVals::make(alloc, engine.view().names) else {
        return TraceEnd::Memory;
    };
    let answer = drive(engine, inputs, event_file, &mut lines, &mut vals, out);
    end_of(engine.view().names, answer)
}

/// The ending for an answer of the driver.
fn end_of(names: &Names, answer: Result<(), DriveEnd>) -> TraceEnd
    requires { spec.HasShortNames (names_of names.now) }
    ensures { result ≡ spec.end_of (names_of names.now) answer }
{
    match answer {
        Ok(()) => TraceEnd::Done,
        Err(DriveEnd::Line(number, fault)) => TraceEnd::Line(number, fault),
        Err(DriveEnd::TooManyLines) => TraceEnd::TooManyLines,
        Err(DriveEnd::FileTooLong) => TraceEnd::FileTooLong,
        Err(DriveEnd::Fault(index, fault)) => TraceEnd::Fault(index, FaultWord::of(names, fault)),
        Err(DriveEnd::Read) => TraceEnd::Read,
        Err(DriveEnd::Write) => TraceEnd::Write,
        Err(DriveEnd::Memory) => TraceEnd::Memory,
    }
}
