//! A run over an event file that comes in pieces.
ghost use Rattle.std.specs.Prelude.{◌≡◌, ◌≢◌, ◌<◌, ◌^◌, length, IsTrue, Err};
ghost use Rattle.flow_base.specs.Causes.{OthersKept, NoneFalls};
ghost use Rattle.actions.specs.Engines.{Fresh};
ghost use Rattle.event_file.specs.LineValues.{IsMadeFor};
ghost use Rattle.trace_text.specs.Pieces.{nothing_held};
ghost use Rattle.event_file.specs.Reading.{unused};
ghost use Rattle.step_driver.specs.Causes as causes;
ghost use Rattle.step_driver.specs.Driving as spec;
ghost use Rattle.step_driver.specs.Ending.{LinesEnd};
ghost use Rattle.step_driver.specs.Leaving.{Leaves};

use crate::events::{run_line, run_start};
use crate::lines::{NoLine, next_line};
use actions::Engine;
use event_file::{InputVals, LineFault, LineReader};
use flow_base::{Fault, Inputs, Sink};
use thiserror::Error;
use trace_text::Pieces;

/// Why a run over an event file ended before the end of the file.
#[derive(Clone, Copy, Debug, PartialEq, Eq, Error)]
pub enum DriveEnd {
    /// The line of that number has that fault. The trace of the events before it was written.
    #[error("line {0}: {1}")]
    Line(u64, LineFault),
    /// The run has that fault at that index. The line of the trace that tells it was written.
    #[error("the run has a fault at index {0}")]
    Fault(u64, Fault),
    /// A read failed.
    #[error("read fault")]
    Read,
    /// A write failed.
    #[error("write fault")]
    Write,
    /// The file has over `FILE_EVENT_LIMIT` events. The trace of the first ones was written.
    #[error("too many events")]
    TooManyLines,
    /// The file has over `FILE_LIMIT` bytes. The trace of the events before the line that holds the
    /// first byte too many was written.
    #[error("the file is too long")]
    FileTooLong,
    /// The engine wants memory.
    #[error("out of memory")]
    Memory,
}

impl From<NoLine> for DriveEnd {
    ghost use Rattle.std.specs.Prelude.{◌≡◌};
    ghost use Rattle.step_driver.specs.Parts.{end_of_line};

    ghost from_gives = { λ no_line end. end ≡ end_of_line no_line };

    fn from(no_line: NoLine) -> DriveEnd {
        match no_line {
            NoLine::TooLong(number) => DriveEnd::Line(number, LineFault::LineTooLong),
            NoLine::FileTooLong => DriveEnd::FileTooLong,
            NoLine::Read => DriveEnd::Read,
            NoLine::Write => DriveEnd::Write,
        }
    }
}

/// Runs an engine over the events of a file: it starts the engine, and then takes line by line.
/// Before it reads the file, the line of the trace for the start, and for each event so far, has
/// been written. Lines whose events are at hand together are written together, `PIECE_SIZE` bytes at
/// once.
///
/// After `Read`, the trace of the events in the whole lines that were given has been written; after
/// `Write` a front of the trace, and after `Memory` whole lines of it. After every other answer the
/// whole trace has been written. `Memory` comes only where the engine answered it.
///
/// `Read` comes only where all bytes that were given ask for more, so what they refuse isn't kept
/// back by a further read. After every other error no more was taken of the file than lines whose
/// trace has been written, and `BUFFER_SIZE` bytes after them.
///
/// Afterwards the engine is in the world to which its run over those events led: a line that is
/// refused leaves the world as it was. Nothing is said of its world after `Memory`, nor after `Write`
/// where it may want memory. Nothing is said of the reader and of the values.
pub fn drive<G: Engine, I: Inputs, O: Sink>(
    engine: &mut G,
    inputs: &mut I,
    name: &str,
    lines: &mut LineReader,
    vals: &mut InputVals,
    out: &mut O,
) -> Result<(), DriveEnd>
    requires fresh { G.stage engine.old ≡ Fresh }
    requires few { length (G.declared (G.program engine.old)).events < 2 ^ 32 }
    requires few_data { length (G.declared (G.program engine.old)).vars < 2 ^ 32 }
    requires unused { lines.old ≡ unused }
    requires vals { IsMadeFor (G.declared (G.program engine.old)) vals.old }
    ensures drives { spec.Drives (G.Starts (G.program engine.old)) (G.Reacts (G.program engine.old))
        (G.tree (G.program engine.old)) (G.declared (G.program engine.old))
        (record {
          wrote_before = O.wrote out.old;
          wrote_after = O.wrote out.new;
          left_before = I.left inputs.old name.now;
          left_after = I.left inputs.new name.now;
        })
        result }
    ensures leaves { Leaves (G.Starts (G.program engine.old)) (G.Reacts (G.program engine.old))
        (G.declared (G.program engine.old)) (I.left inputs.old name.now) (I.left inputs.new name.now)
        G.never_wants_memory (G.world engine.new) result }
    ensures program { G.program engine.new ≡ G.program engine.old }

    // No other file is read, and no count changes without its fault.
    ensures others { OthersKept name.now (I.left inputs.old) (I.left inputs.new) }
    ensures counts { NoneFalls (I.faults inputs.old) (I.faults inputs.new) }
    ensures reads { causes.HasReadCause name.now (I.faults inputs.old) (I.faults inputs.new) result }
    ensures writes { causes.HasWriteCause (O.faults out.old) (O.faults out.new) result }
    ensures memory { IsTrue G.never_wants_memory → result ≢ Err DriveEnd.Memory }
{
    let mut pieces = Pieces::new();
    let end = run_lines::<G, I, O>(engine, inputs, name, lines, vals, &mut pieces, out);
    if pieces.has_failed() {
        return end;
    }
    match pieces.finish(out) {
        Ok(()) => end,
        Err(_) => Err(DriveEnd::Write),
    }
}

/// Starts the engine, and takes line by line. What is kept of the trace is still to be written,
/// where no write failed.
fn run_lines<G: Engine, I: Inputs, O: Sink>(
    engine: &mut G,
    inputs: &mut I,
    name: &str,
    lines: &mut LineReader,
    vals: &mut InputVals,
    pieces: &mut Pieces,
    out: &mut O,
) -> Result<(), DriveEnd>
    requires fresh { G.stage engine.old ≡ Fresh }
    requires few { length (G.declared (G.program engine.old)).events < 2 ^ 32 }
    requires few_data { length (G.declared (G.program engine.old)).vars < 2 ^ 32 }
    requires unused { lines.old ≡ unused }
    requires vals { IsMadeFor (G.declared (G.program engine.old)) vals.old }
    requires empty { pieces.old ≡ nothing_held }
    ensures ends { LinesEnd
        (spec.engine_runs (G.Starts (G.program engine.old)) (G.Reacts (G.program engine.old))
        (G.tree (G.program engine.old)) (G.declared (G.program engine.old)))
        (spec.Drives (G.Starts (G.program engine.old)) (G.Reacts (G.program engine.old))
        (G.tree (G.program engine.old)) (G.declared (G.program engine.old)))
        (causes.is_write result) DriveEnd.Write (causes.is_read result)
        (O.wrote out.old) (O.wrote out.new) (O.faults out.old) (O.faults out.new)
        (I.left inputs.old name.now) (I.left inputs.new name.now) pieces.new.bytes result }
    ensures leaves { Leaves (G.Starts (G.program engine.old)) (G.Reacts (G.program engine.old))
        (G.declared (G.program engine.old)) (I.left inputs.old name.now) (I.left inputs.new name.now)
        G.never_wants_memory (G.world engine.new) result }
    ensures failed { pieces.new.failed ≡ causes.is_write result }
    ensures program { G.program engine.new ≡ G.program engine.old }
    ensures others { OthersKept name.now (I.left inputs.old) (I.left inputs.new) }
    ensures counts { NoneFalls (I.faults inputs.old) (I.faults inputs.new) }
    ensures reads { causes.HasReadCause name.now (I.faults inputs.old) (I.faults inputs.new) result }
    ensures memory { IsTrue G.never_wants_memory → result ≢ Err DriveEnd.Memory }
{
    run_start::<G, O>(engine, pieces, out)?;
    let mut index = 0;
    'lines: while next_line(inputs, name, lines, pieces, out)? {
        index = run_line::<G, O>(
            engine,
            lines.line(),
            lines.number(),
            index,
            vals,
            pieces,
            out,
        )?;
    }
    Ok(())
}
