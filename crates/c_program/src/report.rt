//! The line on standard error.
ghost use Rattle.std.specs.Prelude.{◌≡◌, OnOk, OnErr};
ghost use Rattle.std.specs.Io.KnownBytes.{append_known};
ghost use Rattle.flow_base.specs.Bytes.{AppendsProperFront};
ghost use Rattle.flow_base.specs.Causes.{HasCause};
ghost use Rattle.c_program.specs.Ending.{line_of};

use crate::ending::Ending;
use commands::write_refusal;
use flow_base::{Failed, Sink, write_all};

/// Writes the line of an ending on standard error. Takes no memory. Where a write fails a proper
/// prefix of the line stands there.
pub fn report<E: Sink>(err: &mut E, ending: &Ending) -> Result<(), Failed>
    ensures ok { OnOk result
        (E.wrote err.new ≡ append_known (E.wrote err.old) (line_of ending.now)) }
    ensures failed { OnErr result
        (AppendsProperFront (E.wrote err.old) (E.wrote err.new) (line_of ending.now)) }
    ensures cause { HasCause (E.faults err.old) (E.faults err.new) result }
{
    match ending {
        Ending::Done => Ok(()),
        Ending::Chart(refusal) => write_refusal(err, *refusal),
        Ending::Usage => write_all(
            err,
            b"usage: chart_to_c header CHART, source CHART, --version; --depth D, --steps S\n",
        ),
        Ending::Read => write_all(err, b"read fault\n"),
        Ending::Write => write_all(err, b"write fault\n"),
        Ending::Memory => write_all(err, b"out of memory\n"),
    }
}
