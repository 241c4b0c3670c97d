//! Pieces of the line on standard error.
ghost use Rattle.std.specs.Prelude.{◌≡◌, OnOk, OnErr, decimal};
ghost use Rattle.std.specs.Io.KnownBytes.{append_known};
ghost use Rattle.flow_base.specs.Bytes.{AppendsProperFront};
ghost use Rattle.flow_base.specs.Causes.{HasCause};
ghost use Rattle.commands.specs.ErrorLines.{kind_text, place_text, refusal_line};

use crate::refusal::Refusal;
use chart_tree::FormKind;
use flow_base::{Failed, Sink, write_all};
use itoa::Buffer;
use token_grammar::Span;

/// Writes a number. Takes no memory; where a write fails a proper prefix of it stands there.
pub fn write_number<E: Sink>(err: &mut E, number: u64) -> Result<(), Failed>
    ensures ok { OnOk result (E.wrote err.new ≡ append_known (E.wrote err.old) (decimal number)) }
    ensures failed { OnErr result
        (AppendsProperFront (E.wrote err.old) (E.wrote err.new) (decimal number)) }
    ensures cause { HasCause (E.faults err.old) (E.faults err.new) result }
{
    let mut buffer = Buffer::new();
    write_all(err, buffer.format(number).as_bytes())
}

/// Writes the place of a fault of a chart text.
fn write_place<E: Sink>(err: &mut E, at: Span) -> Result<(), Failed>
    ensures ok { OnOk result (E.wrote err.new ≡ append_known (E.wrote err.old) (place_text at)) }
    ensures failed { OnErr result
        (AppendsProperFront (E.wrote err.old) (E.wrote err.new) (place_text at)) }
    ensures cause { HasCause (E.faults err.old) (E.faults err.new) result }
{
    write_all(err, b"chart ")?;
    write_number(err, u64::from(at.line))?;
    write_all(err, b":")?;
    write_number(err, u64::from(at.column))
}

/// Writes number and name of a kind of fault of a chart text. Takes no memory; where a write fails
/// a proper prefix of the piece stands there.
pub fn write_kind<E: Sink>(err: &mut E, kind: FormKind) -> Result<(), Failed>
    ensures ok { OnOk result (E.wrote err.new ≡ append_known (E.wrote err.old) (kind_text kind)) }
    ensures failed { OnErr result
        (AppendsProperFront (E.wrote err.old) (E.wrote err.new) (kind_text kind)) }
    ensures cause { HasCause (E.faults err.old) (E.faults err.new) result }
{
    write_all(err, b": ")?;
    write_number(err, u64::from(kind.number()))?;
    write_all(err, b" ")?;
    write_all(err, kind.name().as_bytes())
}

/// Writes the line of a chart text that is refused. Takes no memory; where a write fails a proper
/// prefix of the line stands there.
pub fn write_refusal<E: Sink>(err: &mut E, refusal: Refusal) -> Result<(), Failed>
    ensures ok { OnOk result
        (E.wrote err.new ≡ append_known (E.wrote err.old) (refusal_line refusal)) }
    ensures failed { OnErr result
        (AppendsProperFront (E.wrote err.old) (E.wrote err.new) (refusal_line refusal)) }
    ensures cause { HasCause (E.faults err.old) (E.faults err.new) result }
{
    write_place(err, refusal.at)?;
    write_kind(err, refusal.kind)?;
    write_all(err, b"\n")
}
