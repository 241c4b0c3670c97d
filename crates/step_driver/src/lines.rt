//! The lines of a file, one after the other, where what is kept of a trace is written before a read.
ghost use Rattle.std.specs.Prelude.{◌≡◌, false};
ghost use Rattle.flow_base.specs.Causes.{OthersKept, NoneFalls};
ghost use Rattle.step_driver.specs.Causes.{ReadCause};
ghost use Rattle.step_driver.specs.NextLines as spec;

use event_file::{LineEnd, LineReader};
use flow_base::{Inputs, Sink};
use thiserror::Error;
use trace_text::Pieces;

/// Why no line was taken.
#[derive(Clone, Copy, Debug, PartialEq, Eq, Error)]
pub enum NoLine {
    /// The line of that number has over `LINE_LIMIT` bytes.
    #[error("line {0} is too long")]
    TooLong(u64),
    /// The file has over `FILE_LIMIT` bytes.
    #[error("the file is too long")]
    FileTooLong,
    /// A read failed.
    #[error("read fault")]
    Read,
    /// What is kept of the trace can't be written.
    #[error("write fault")]
    Write,
}

/// Takes the next line of the file, and answers true; at the end of the file it answers false. What
/// is kept of the trace is written before a read. It takes no memory.
#[inline(always)]
pub fn next_line<I: Inputs, O: Sink>(
    inputs: &mut I,
    name: &str,
    lines: &mut LineReader,
    pieces: &mut Pieces,
    out: &mut O,
) -> Result<bool, NoLine>
    requires lines { lines.old.failed ≡ false }
    requires usable { pieces.old.failed ≡ false }
    ensures next { spec.Follows lines.old lines.new
        (I.left inputs.old name.now) (I.left inputs.new name.now) result }
    ensures moves { spec.Moves (spec.failed_to_write result) lines.old
        (I.left inputs.old name.now) (I.left inputs.new name.now)
        (O.wrote out.old) (O.wrote out.new) (O.faults out.old) (O.faults out.new) pieces.old pieces.new }
    ensures others { OthersKept name.now (I.left inputs.old) (I.left inputs.new) }
    ensures counts { NoneFalls (I.faults inputs.old) (I.faults inputs.new) }
    ensures reads { ReadCause (spec.failed_to_read result) name.now (I.faults inputs.old) (I.faults inputs.new) }
{
    match lines.line_at_hand() {
        Some(found) => found_or_none(found, lines.number()),
        None => read_line(inputs, name, lines, pieces, out),
    }
}

/// Writes what is kept, and then reads on to the end of the next line.
#[cold]
#[inline(never)]
fn read_line<I: Inputs, O: Sink>(
    inputs: &mut I,
    name: &str,
    lines: &mut LineReader,
    pieces: &mut Pieces,
    out: &mut O,
) -> Result<bool, NoLine>
    requires lines { lines.old.failed ≡ false }
    requires usable { pieces.old.failed ≡ false }
    ensures next { spec.Follows lines.old lines.new
        (I.left inputs.old name.now) (I.left inputs.new name.now) result }
    ensures flushes { spec.Flushes (spec.failed_to_write result)
        (O.wrote out.old) (O.wrote out.new) (O.faults out.old) (O.faults out.new) pieces.old pieces.new }
    ensures others { OthersKept name.now (I.left inputs.old) (I.left inputs.new) }
    ensures counts { NoneFalls (I.faults inputs.old) (I.faults inputs.new) }
    ensures reads { ReadCause (spec.failed_to_read result) name.now (I.faults inputs.old) (I.faults inputs.new) }
{
    match pieces.finish(out) {
        Ok(()) => {
            let found = lines.next_line(inputs, name);
            found_or_none(found, lines.number())
        }
        Err(_) => Err(NoLine::Write),
    }
}

/// The answer for what the reader found at the line of that number.
#[inline(always)]
fn found_or_none(found: Result<bool, LineEnd>, number: u64) -> Result<bool, NoLine>
    ensures { result ≡ spec.found_or_none number found }
{
    match found {
        Ok(found) => Ok(found),
        Err(LineEnd::Read) => Err(NoLine::Read),
        Err(LineEnd::TooLong) => Err(NoLine::TooLong(number)),
        Err(LineEnd::FileTooLong) => Err(NoLine::FileTooLong),
    }
}
