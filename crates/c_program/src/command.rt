//! The program.
ghost use Rattle.std.specs.Prelude.{◌≡◌, ◌⊎◌, Some, None, option_map};
ghost use Rattle.commands.specs.Call.{output_of, call_of};
ghost use Rattle.c_program.specs.Seen.{command_seen};
ghost use Rattle.c_program.specs.Words.{command_of};
ghost use Rattle.c_program.specs.Answer.{Ends, CallEnds, OthersKeep, CAnswer};

use crate::ending::Ending;
use crate::files::{CFile, write_file};
use crate::report::report;
use crate::version::write_version;
use crate::words::{CCommand, command_from};
use flow_base::{Inputs, Memory, Sink, Status};
use std::alloc::Global;

/// Does all that the program does: reads the file that the arguments name, writes the answer on
/// `out` and a line on `err` where the answer isn't whole, and answers the status with which the
/// process ends.
///
/// `header CHART` writes the header of the C of the accepted chart of the file, and `source CHART`
/// its source. Both take the bounds `--depth` and `--steps`; where neither stands there, the bounds
/// are those that no event of the chart overruns, if it has such bounds, and else the default ones.
/// `--version` alone writes the version. All other arguments are refused as Usage. Any arguments may
/// end in Memory before anything is read.
pub fn c_main<I: Inputs, O: Sink, E: Sink>(
    alloc: Global,
    words: &[String],
    inputs: &mut I,
    out: &mut O,
    err: &mut E,
) -> Status
    ensures usage { result ≡ Status.Usage → command_of words.now ≡ None }
    ensures no_command { command_of words.now ≡ None
        → (result ≡ Status.Usage) ⊎ (result ≡ Status.Memory) }
    ensures answer { CAnswer (command_of words.now)
        (call_of I.Inputs O.Sink inputs.old inputs.new out.old out.new)
        (output_of E.Sink err.old) (output_of E.Sink err.new) result }
{
    let ending = call(alloc, words, inputs, out);
    let _ = report(err, &ending);
    ending.status()
}

/// Does what the arguments ask for.
fn call<I: Inputs, O: Sink>(alloc: Global, words: &[String], inputs: &mut I, out: &mut O) -> Ending
    ensures ends { CallEnds (command_of words.now)
        (call_of I.Inputs O.Sink inputs.old inputs.new out.old out.new) result }
    ensures others { OthersKeep (command_of words.now)
        (call_of I.Inputs O.Sink inputs.old inputs.new out.old out.new) }
{
    match command_from(alloc, words) {
        Ok(asked) => answer_asked(alloc, asked, inputs, out),
        Err(Memory) => Ending::Memory,
    }
}

/// Does what the arguments ask for, and ends as Usage where they ask for no command.
fn answer_asked<I: Inputs, O: Sink>(
    alloc: Global,
    asked: Option<CCommand<'_>>,
    inputs: &mut I,
    out: &mut O,
) -> Ending
    ensures ends { Ends (option_map command_seen asked.entry)
        (call_of I.Inputs O.Sink inputs.old inputs.new out.old out.new) result }
    ensures others { OthersKeep (option_map command_seen asked.entry)
        (call_of I.Inputs O.Sink inputs.old inputs.new out.old out.new) }
{
    match asked {
        Some(command) => answer(alloc, command, inputs, out),
        None => Ending::Usage,
    }
}

/// Does what a command says.
fn answer<I: Inputs, O: Sink>(
    alloc: Global,
    command: CCommand<'_>,
    inputs: &mut I,
    out: &mut O,
) -> Ending
    ensures ends { Ends (Some (command_seen command.entry))
        (call_of I.Inputs O.Sink inputs.old inputs.new out.old out.new) result }
    ensures others { OthersKeep (Some (command_seen command.entry))
        (call_of I.Inputs O.Sink inputs.old inputs.new out.old out.new) }
{
    match command {
        CCommand::Header(chart, asked) => {
            Ending::from(write_file(alloc, CFile::Header, chart, asked, inputs, out))
        }
        CCommand::Source(chart, asked) => {
            Ending::from(write_file(alloc, CFile::Source, chart, asked, inputs, out))
        }
        CCommand::Version => Ending::from(write_version(inputs, out)),
    }
}
