//! The program.
ghost use Rattle.std.specs.Prelude.{◌≡◌, ◌⊎◌, Some, None, option_map};
ghost use Rattle.command_words.specs.Seen.{command_seen};
ghost use Rattle.command_words.specs.Words.{command_of};
ghost use Rattle.commands.specs.Call.{output_of, call_of};
ghost use Rattle.flow_program.specs.Answer.{Ends, CallEnds, OthersKeep, Answer};

use crate::ending::Ending;
use crate::fmt::format_chart;
use crate::report::report;
use crate::selftest::selftest;
use command_words::{Command, command_from};
use commands::{
    bound_chart, check_chart, compile_chart, exec_code, run_chart, run_compiled, run_net,
    shrink_code, upgrade_code,
};
use flow_base::{Inputs, Memory, Sink, Status};
use std::alloc::Global;

/// Does all that the program does: reads the files that the arguments name, writes the answer on
/// `out` and a line on `err` where the answer isn't whole, and answers the status with which the
/// process ends.
///
/// `check CHART` writes how many states, junctions, transitions and pairs the accepted chart of the
/// file has. `fmt CHART` writes the canonical text of the chart of the file. `rules CHART EVENTS`
/// runs the accepted chart of the first file by the rules over the events of the second and writes
/// the trace. `compile CHART` writes the text of the code of the accepted chart of the file, which
/// runs as the chart. `exec CODE EVENTS` runs the code of the first file over the events of the
/// second and writes the trace. `run CHART EVENTS` compiles the accepted chart of the first file
/// and runs the text of its code as `exec` does. `upgrade CODE` writes the text of format 2 of the
/// code of the file. `bounds CHART` writes the bounds of a run that no event of the accepted chart
/// of the file can overrun, or that a certificate gives none. `shrink CODE` writes the text of
/// format 2 of smaller code of the same meaning. `net NET SCHEDULE` compiles the charts of the files
/// that the text of the first file names, runs their code over the steps of the second file, and
/// writes the trace. `selftest N` runs generated case N by the rules and as printed code, and writes
/// one line of counts. `rules`, `exec`, `run` and `net` take the bounds `--depth` and `--steps`. All
/// other arguments are refused as Usage. Any arguments may end in Memory before anything is read.
pub fn chart_main<I: Inputs, O: Sink, E: Sink>(
    alloc: Global,
    words: &[String],
    inputs: &mut I,
    out: &mut O,
    err: &mut E,
) -> Status
    ensures usage { result ≡ Status.Usage → command_of words.now ≡ None }
    ensures no_command { command_of words.now ≡ None
        → (result ≡ Status.Usage) ⊎ (result ≡ Status.Memory) }
    ensures answer { Answer (command_of words.now)
        (call_of I.Inputs O.Sink inputs.old inputs.new out.old out.new)
        (output_of E.Sink err.old) (output_of E.Sink err.new) result }
{
    let ending = call(alloc, words, inputs, out);
    // A line that can't be written changes no status.
    let _ = report(err, &ending);
    ending.status()
}

/// Does what the arguments ask for.
fn call<I: Inputs, O: Sink>(alloc: Global, words: &[String], inputs: &mut I, out: &mut O) -> Ending
    ensures ends { CallEnds (command_of words.now)
        (call_of I.Inputs O.Sink inputs.old inputs.new out.old out.new) result }
    ensures others { OthersKeep (command_of words.now)
        (call_of I.Inputs O.Sink inputs.old inputs.new out.old out.new) }
{
    match command_from(alloc, words) {
        Ok(asked) => answer_asked(alloc, asked, inputs, out),
        Err(Memory) => Ending::Memory,
    }
}

/// Does what the arguments ask for, and ends as Usage where they ask for no command.
fn answer_asked<I: Inputs, O: Sink>(
    alloc: Global,
    asked: Option<Command<'_>>,
    inputs: &mut I,
    out: &mut O,
) -> Ending
    ensures ends { Ends (option_map command_seen asked.entry)
        (call_of I.Inputs O.Sink inputs.old inputs.new out.old out.new) result }
    ensures others { OthersKeep (option_map command_seen asked.entry)
        (call_of I.Inputs O.Sink inputs.old inputs.new out.old out.new) }
{
    match asked {
        Some(command) => answer(alloc, command, inputs, out),
        None => Ending::Usage,
    }
}

/// Does what a command says.
fn answer<I: Inputs, O: Sink>(
    alloc: Global,
    command: Command<'_>,
    inputs: &mut I,
    out: &mut O,
) -> Ending
    ensures ends { Ends (Some (command_seen command.entry))
        (call_of I.Inputs O.Sink inputs.old inputs.new out.old out.new) result }
    ensures others { OthersKeep (Some (command_seen command.entry))
        (call_of I.Inputs O.Sink inputs.old inputs.new out.old out.new) }
{
    match command {
        Command::Check(chart) => Ending::from(check_chart(alloc, chart, inputs, out)),
        Command::Fmt(chart) => Ending::from(format_chart(alloc, chart, inputs, out)),
        Command::Rules(chart, events, bounds) => {
            Ending::from(run_chart(alloc, chart, events, bounds, inputs, out))
        }
        Command::Compile(chart) => Ending::from(compile_chart(alloc, chart, inputs, out)),
        Command::Exec(code, events, bounds) => {
            Ending::from(exec_code(alloc, code, events, bounds, inputs, out))
        }
        Command::Run(chart, events, bounds) => {
            Ending::from(run_compiled(alloc, chart, events, bounds, inputs, out))
        }
        Command::Upgrade(code) => Ending::from(upgrade_code(alloc, code, inputs, out)),
        Command::Bound(chart) => Ending::from(bound_chart(alloc, chart, inputs, out)),
        Command::Shrink(code) => Ending::from(shrink_code(alloc, code, inputs, out)),
        Command::Net(net, schedule, bounds) => {
            Ending::from(run_net(alloc, net, schedule, bounds, inputs, out))
        }
        Command::Selftest(number) => Ending::from(selftest(alloc, number, out)),
    }
}
