//! The words `--version`.
ghost use Rattle.std.specs.Prelude.{◌≡◌};
ghost use Rattle.commands.specs.Call.{call_of};
ghost use Rattle.c_program.specs.Texts.{VersionEnds, version_line};

use commands::{Refusal, TextEnd};
use flow_base::{Inputs, Sink, write_all};

/// The line that tells the version.
fn line() -> &'static [u8]
    ensures { result.now ≡ version_line }
{
    b"chart_to_c 1.0.0\n"
}

/// Writes the line that tells the version of the program. It takes no memory and reads nothing.
pub fn write_version<I: Inputs, O: Sink>(inputs: &I, out: &mut O) -> TextEnd<Refusal>
    ensures { VersionEnds
        (call_of I.Inputs O.Sink inputs.now inputs.now out.old out.new) result }
{
    // Only the contract reads the files: they stay as they are.
    let _ = inputs;
    match write_all(out, line()) {
        Ok(()) => TextEnd::Done,
        Err(_) => TextEnd::Write,
    }
}
