//! The words of the command line.
ghost use Rattle.std.specs.Prelude.{◌≡◌, IfOk, map, option_map, string_bytes};
ghost use Rattle.clap.specs.Words.{found_of, rows_of, subcommand_rows_of};
ghost use Rattle.c_program.specs.Commands as spec;
ghost use Rattle.c_program.specs.Asked.{asked_found, command_found, found_named, text_found};
ghost use Rattle.c_program.specs.Seen.{asked_seen, command_seen};
ghost use Rattle.c_program.specs.Words as words;
ghost use Rattle.c_program.specs.Words.{command_of, command_of_texts};

use crate::parser::program;
use clap::ArgMatches;
use clap::error::ErrorKind;
use command_words::{bounds_in, number_in, text_in};
use flow_base::{Bounds, Memory};
use std::alloc::Global;

/// A command of `chart_to_c`: with the file of its chart, and the bounds that its options set, if
/// one of them stands there.
#[derive(Clone, Copy)]
pub enum CCommand<'a> {
    /// `header CHART`
    Header(&'a str, Option<Bounds>),
    /// `source CHART`
    Source(&'a str, Option<Bounds>),
    /// `--version`
    Version,
}

/// What the words ask for; none where they are no list of words of the program.
///
/// `header` and `source` take `--depth V` (1 to `DEPTH_LIMIT`, default 8) and `--steps V` (1 to
/// `STEP_LIMIT`, default 10,000), each at most once. Any list of words may end in `Memory`.
pub fn command_from<'a>(alloc: Global, words: &'a [String]) -> Result<Option<CCommand<'a>>, Memory>
    ensures { IfOk result (λ command. option_map command_seen command ≡ command_of words.now) }
{
    if asks_version(words) {
        Ok(Some(CCommand::Version))
    } else {
        parsed(alloc, words)
    }
}

/// Whether the words are the one word `--version`.
fn asks_version(texts: &[String]) -> bool
    ensures { result ≡ words.asks_version (map string_bytes texts.now) }
{
    match texts {
        [word] => word.as_str() == "--version",
        _ => false,
    }
}

/// The command of one file that the words ask for.
fn parsed<'a>(alloc: Global, words: &'a [String]) -> Result<Option<CCommand<'a>>, Memory>
    ensures { IfOk result (λ command. option_map command_seen command
        ≡ command_of_texts (map string_bytes words.now)) }
{
    let Ok(parser) = program(alloc) else {
        return Err(Memory);
    };
    match parser.try_get_matches_from(words) {
        Ok(matches) => Ok(command_in(&matches)),
        Err(error) => match error.kind() {
            ErrorKind::OutOfMemory => Err(Memory),
            _ => Ok(None),
        },
    }
}

/// The command that a parse found.
fn command_in<'a>(matches: &ArgMatches<'a>) -> Option<CCommand<'a>>
    ensures { option_map command_seen result ≡ command_found (subcommand_rows_of matches.now) }
{
    let (name, given) = matches.subcommand()?;
    named(name, given)
}

/// The command of that name with what is given to it.
fn named<'a>(name: &str, given: &ArgMatches<'a>) -> Option<CCommand<'a>>
    ensures { option_map command_seen result
        ≡ found_named name.now (rows_of (found_of given.now)) }
{
    match name {
        "header" => header_in(given),
        "source" => source_in(given),
        _ => None,
    }
}

/// The command `header` with its file and bounds.
fn header_in<'a>(given: &ArgMatches<'a>) -> Option<CCommand<'a>>
    ensures { option_map command_seen result
        ≡ text_found spec.Header (rows_of (found_of given.now)) }
{
    let chart = text_in(given, "first")?;
    Some(CCommand::Header(chart, asked_in(given)))
}

/// The command `source` with its file and bounds.
fn source_in<'a>(given: &ArgMatches<'a>) -> Option<CCommand<'a>>
    ensures { option_map command_seen result
        ≡ text_found spec.Source (rows_of (found_of given.now)) }
{
    let chart = text_in(given, "first")?;
    Some(CCommand::Source(chart, asked_in(given)))
}

/// The bounds that the options set, with the default ones where only one option stands there; none
/// where no option does.
fn asked_in(given: &ArgMatches<'_>) -> Option<Bounds>
    ensures { asked_seen result ≡ asked_found (rows_of (found_of given.now)) }
{
    if number_in(given, "depth").is_some() || number_in(given, "steps").is_some() {
        bounds_in(given)
    } else {
        None
    }
}
