//! The line on standard error.
ghost use Rattle.std.specs.Prelude.{◌≡◌, ◌++◌, OnOk, OnErr, codes, decimal};
ghost use Rattle.std.specs.Io.KnownBytes.{append_known};
ghost use Rattle.flow_base.specs.Bytes.{AppendsProperFront};
ghost use Rattle.flow_base.specs.Causes.{HasCause};
ghost use Rattle.flow_program.specs.Ending.{event_fault_text, line_of, named_place_text};
ghost use Rattle.flow_program.specs.Ending.{spot_text, stop_text};

use crate::ending::Ending;
use commands::{write_kind, write_number, write_refusal};
use event_file::LineFault;
use flow_base::{Failed, Sink, write_all};
use token_grammar::Span;

/// The line for arguments that ask for no command.
const USAGE: &str = "usage: flowc check CHART, fmt CHART, rules CHART EVENTS, compile CHART, \
    exec CODE EVENTS, run CHART EVENTS, upgrade CODE, bounds CHART, shrink CODE, \
    net NET SCHEDULE, selftest N; --depth D, --steps S\n";

/// Writes a text, and ends the line.
fn write_line<E: Sink>(err: &mut E, text: &str) -> Result<(), Failed>
    ensures ok { OnOk result
        (E.wrote err.new ≡ append_known (E.wrote err.old) (text.now ++ codes "\n")) }
    ensures failed { OnErr result
        (AppendsProperFront (E.wrote err.old) (E.wrote err.new) (text.now ++ codes "\n")) }
    ensures cause { HasCause (E.faults err.old) (E.faults err.new) result }
{
    write_all(err, text.as_bytes())?;
    write_all(err, b"\n")
}

/// Writes what stands before the fault of an event line or of a run: a word, and the number of the
/// line or the index of the event.
fn write_head<E: Sink>(err: &mut E, word: &str, number: u64) -> Result<(), Failed>
    ensures ok { OnOk result (E.wrote err.new ≡ append_known (E.wrote err.old)
        (word.now ++ decimal number ++ codes ": ")) }
    ensures failed { OnErr result (AppendsProperFront (E.wrote err.old) (E.wrote err.new)
        (word.now ++ decimal number ++ codes ": ")) }
    ensures cause { HasCause (E.faults err.old) (E.faults err.new) result }
{
    write_all(err, word.as_bytes())?;
    write_number(err, number)?;
    write_all(err, b": ")
}

/// Writes number and name of a fault of an event line.
fn write_event_fault<E: Sink>(err: &mut E, fault: LineFault) -> Result<(), Failed>
    ensures ok { OnOk result
        (E.wrote err.new ≡ append_known (E.wrote err.old) (event_fault_text fault)) }
    ensures failed { OnErr result
        (AppendsProperFront (E.wrote err.old) (E.wrote err.new) (event_fault_text fault)) }
    ensures cause { HasCause (E.faults err.old) (E.faults err.new) result }
{
    write_number(err, u64::from(fault.number()))?;
    write_all(err, b" ")?;
    write_all(err, fault.name().as_bytes())
}

/// Writes a place in a text.
fn write_spot<E: Sink>(err: &mut E, at: Span) -> Result<(), Failed>
    ensures ok { OnOk result (E.wrote err.new ≡ append_known (E.wrote err.old) (spot_text at)) }
    ensures failed { OnErr result
        (AppendsProperFront (E.wrote err.old) (E.wrote err.new) (spot_text at)) }
    ensures cause { HasCause (E.faults err.old) (E.faults err.new) result }
{
    write_number(err, u64::from(at.line))?;
    write_all(err, b":")?;
    write_number(err, u64::from(at.column))
}

/// Writes a place in the text of a chart of a net.
fn write_named_place<E: Sink>(err: &mut E, name: &str, at: Span) -> Result<(), Failed>
    ensures ok { OnOk result
        (E.wrote err.new ≡ append_known (E.wrote err.old) (named_place_text name.now at)) }
    ensures failed { OnErr result
        (AppendsProperFront (E.wrote err.old) (E.wrote err.new) (named_place_text name.now at)) }
    ensures cause { HasCause (E.faults err.old) (E.faults err.new) result }
{
    write_all(err, b"chart ")?;
    write_all(err, name.as_bytes())?;
    write_all(err, b" ")?;
    write_spot(err, at)
}

/// Writes the line of a run that a route ended.
fn write_stop<E: Sink>(err: &mut E, step: u64, word: &str, route: u32) -> Result<(), Failed>
    ensures ok { OnOk result
        (E.wrote err.new ≡ append_known (E.wrote err.old) (stop_text step word.now route)) }
    ensures failed { OnErr result
        (AppendsProperFront (E.wrote err.old) (E.wrote err.new) (stop_text step word.now route)) }
    ensures cause { HasCause (E.faults err.old) (E.faults err.new) result }
{
    write_head(err, "run ", step)?;
    write_all(err, word.as_bytes())?;
    write_number(err, u64::from(route))?;
    write_all(err, b"\n")
}

/// Writes the line of an ending on standard error. Takes no memory. Where a write fails a proper
/// prefix of the line stands there.
pub fn report<E: Sink>(err: &mut E, ending: &Ending) -> Result<(), Failed>
    ensures ok { OnOk result
        (E.wrote err.new ≡ append_known (E.wrote err.old) (line_of ending.now)) }
    ensures failed { OnErr result
        (AppendsProperFront (E.wrote err.old) (E.wrote err.new) (line_of ending.now)) }
    ensures cause { HasCause (E.faults err.old) (E.faults err.new) result }
{
    match ending {
        Ending::Done => Ok(()),
        Ending::Chart(refusal) => write_refusal(err, *refusal),
        Ending::Code(fault) => write_line(err, fault.text().as_str()),
        Ending::Net(fault) => write_line(err, fault.text().as_str()),
        Ending::NetChart(chart, refusal) => {
            write_named_place(err, chart.name(), refusal.at)?;
            write_kind(err, refusal.kind)?;
            write_all(err, b"\n")
        }
        Ending::Line(number, fault) => {
            write_head(err, "event ", *number)?;
            write_event_fault(err, *fault)?;
            write_all(err, b"\n")
        }
        Ending::TooManyLines => write_all(err, b"event: 5 TooManyLines\n"),
        Ending::FileTooLong => write_all(err, b"event: 6 FileTooLong\n"),
        Ending::Fault(index, word) => {
            write_head(err, "run ", *index)?;
            write_line(err, word.text())
        }
        Ending::Full(step, route) => write_stop(err, *step, "full ", *route),
        Ending::Empty(step, route) => write_stop(err, *step, "empty ", *route),
        Ending::Usage => write_all(err, USAGE.as_bytes()),
        Ending::Read => write_all(err, b"read fault\n"),
        Ending::Write => write_all(err, b"write fault\n"),
        Ending::Memory => write_all(err, b"out of memory\n"),
    }
}
