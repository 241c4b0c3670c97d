//! The words of the command line.
ghost use Rattle.std.specs.Prelude.{◌≡◌, IfOk, option_map};
ghost use Rattle.clap.specs.Words.{found_of, rows_of, subcommand_rows_of};
ghost use Rattle.command_words.specs.Commands as spec;
ghost use Rattle.command_words.specs.Asked.{command_found, file_found_named, found_named};
ghost use Rattle.command_words.specs.Asked.{net_found, number_found, run_found, run_of_name};
ghost use Rattle.command_words.specs.Seen.{command_seen};
ghost use Rattle.command_words.specs.Words.{command_of};

use crate::arguments::{bounds_in, files_in, net_bounds_in, number_in, text_in};
use crate::parser::program;
use clap::ArgMatches;
use clap::error::ErrorKind;
use flow_base::{Bounds, Memory};
use std::alloc::Global;

/// The greatest number that a word may give: the greatest of 32 bits.
pub(crate) const NUMBER_LIMIT: u32 = 4_294_967_295;

/// The greatest number of steps that one event of a net may be given.
pub const NET_STEP_LIMIT: u32 = 2_500;

/// A command with its files, and with its bounds or its number.
#[derive(Clone, Copy)]
pub enum Command<'a> {
    /// `check CHART`
    Check(&'a str),
    /// `fmt CHART`
    Fmt(&'a str),
    /// `rules CHART EVENTS`
    Rules(&'a str, &'a str, Bounds),
    /// `compile CHART`
    Compile(&'a str),
    /// `exec CODE EVENTS`
    Exec(&'a str, &'a str, Bounds),
    /// `run CHART EVENTS`
    Run(&'a str, &'a str, Bounds),
    /// `upgrade CODE`
    Upgrade(&'a str),
    /// `bounds CHART`
    Bound(&'a str),
    /// `shrink CODE`
    Shrink(&'a str),
    /// `net NET SCHEDULE`
    Net(&'a str, &'a str, Bounds),
    /// `selftest N`
    Selftest(u32),
}

/// What the words ask for; none where they are no list of words of the program.
///
/// `rules`, `exec` and `run` take `--depth V` (1 to `DEPTH_LIMIT`, default 8) and `--steps V` (1 to
/// `STEP_LIMIT`, default 10,000), each at most once. `net` takes them too, with at most
/// `NET_STEP_LIMIT` steps, the default. Any list of words may end in `Memory`.
pub fn command_from<'a>(alloc: Global, words: &'a [String]) -> Result<Option<Command<'a>>, Memory>
    ensures { IfOk result (λ command. option_map command_seen command ≡ command_of words.now) }
{
    let Ok(parser) = program(alloc) else {
        return Err(Memory);
    };
    match parser.try_get_matches_from(words) {
        Ok(matches) => Ok(command_in(&matches)),
        Err(error) => match error.kind() {
            ErrorKind::OutOfMemory => Err(Memory),
            _ => Ok(None),
        },
    }
}

/// The command that a parse found.
fn command_in<'a>(matches: &ArgMatches<'a>) -> Option<Command<'a>>
    ensures { option_map command_seen result ≡ command_found (subcommand_rows_of matches.now) }
{
    let (name, given) = matches.subcommand()?;
    named(name, given)
}

/// The command of that name with what is given to it.
fn named<'a>(name: &str, given: &ArgMatches<'a>) -> Option<Command<'a>>
    ensures { option_map command_seen result
        ≡ found_named name.now (rows_of (found_of given.now)) }
{
    match name {
        "rules" => run_named(name, given),
        "exec" => run_named(name, given),
        "run" => run_named(name, given),
        "net" => net_in(given),
        "selftest" => selftest_in(given),
        _ => file_named(name, given),
    }
}

/// The command of that name with its file, where it is one of a file alone.
fn file_named<'a>(name: &str, given: &ArgMatches<'a>) -> Option<Command<'a>>
    ensures { option_map command_seen result
        ≡ file_found_named name.now (rows_of (found_of given.now)) }
{
    let first = text_in(given, "first")?;
    match name {
        "check" => Some(Command::Check(first)),
        "fmt" => Some(Command::Fmt(first)),
        "compile" => Some(Command::Compile(first)),
        "upgrade" => Some(Command::Upgrade(first)),
        "bounds" => Some(Command::Bound(first)),
        "shrink" => Some(Command::Shrink(first)),
        _ => None,
    }
}

/// The command `rules`, `exec` or, for any other name, `run`, with its files and bounds.
fn run_named<'a>(name: &str, given: &ArgMatches<'a>) -> Option<Command<'a>>
    ensures { option_map command_seen result
        ≡ run_found (run_of_name name.now) (rows_of (found_of given.now)) }
{
    let (first, second) = files_in(given)?;
    let bounds = bounds_in(given)?;
    match name {
        "rules" => Some(Command::Rules(first, second, bounds)),
        "exec" => Some(Command::Exec(first, second, bounds)),
        _ => Some(Command::Run(first, second, bounds)),
    }
}

/// The command `net` with its files and bounds.
fn net_in<'a>(given: &ArgMatches<'a>) -> Option<Command<'a>>
    ensures { option_map command_seen result ≡ net_found (rows_of (found_of given.now)) }
{
    let (net, schedule) = files_in(given)?;
    Some(Command::Net(net, schedule, net_bounds_in(given)?))
}

/// The command `selftest` with its number.
fn selftest_in<'a>(given: &ArgMatches<'a>) -> Option<Command<'a>>
    ensures { option_map command_seen result
        ≡ number_found spec.Selftest (rows_of (found_of given.now)) }
{
    Some(Command::Selftest(number_in(given, "first")?))
}
