//! The parser of the words.
ghost use Rattle.std.specs.Prelude.{◌≡◌, IfOk, false};
ghost use Rattle.clap.specs.Words.{App, app_of, rule_of, with_subcommand};
ghost use Rattle.command_words.specs.Parser.{Builds, bare_app, program_app, file_rule, option_rule};
ghost use Rattle.command_words.specs.Parser.{file_app, files_app, first_app, number_app, run_app};

use crate::words::NUMBER_LIMIT;
use clap::builder::ValueParser;
use clap::{Arg, Command};
use flow_base::{DEPTH_LIMIT, STEP_LIMIT};
use std::alloc::{AllocError, Global};

/// The parser of the program's words.
pub(crate) fn program<'a>(alloc: Global) -> Result<Command<'a>, AllocError>
    ensures { IfOk result (λ parser. app_of parser ≡ program_app) }
{
    let parser = first_commands(alloc);
    let parser = then_run(alloc, parser, "exec");
    let parser = then_run(alloc, parser, "run");
    let parser = then_file(alloc, parser, "upgrade");
    let parser = then_file(alloc, parser, "bounds");
    let parser = then_file(alloc, parser, "shrink");
    match then_run(alloc, parser, "net") {
        Ok(parser) => with_command(parser, with_number(alloc, "selftest")),
        Err(error) => Err(error),
    }
}

/// The parser with the first of its commands.
fn first_commands<'a>(alloc: Global) -> Result<Command<'a>, AllocError>
    ensures { IfOk result (λ parser. app_of parser ≡ first_app) }
{
    let parser = with_command(bare(alloc, "flowc"), with_file(alloc, "check"));
    let parser = then_file(alloc, parser, "fmt");
    let parser = then_run(alloc, parser, "rules");
    then_file(alloc, parser, "compile")
}

/// The parser with one more command of one file.
fn then_file<'a>(
    alloc: Global,
    parser: Result<Command<'a>, AllocError>,
    name: &'a str,
) -> Result<Command<'a>, AllocError>
    ensures { (app : App) → IfOk parser.entry (λ before. app_of before ≡ app)
        → IfOk result (λ more. app_of more ≡ with_subcommand app (file_app name.entry.now).top) }
{
    match parser {
        Ok(parser) => with_command(parser, with_file(alloc, name)),
        Err(error) => Err(error),
    }
}

/// The parser with one more command of two files, which takes bounds.
fn then_run<'a>(
    alloc: Global,
    parser: Result<Command<'a>, AllocError>,
    name: &'a str,
) -> Result<Command<'a>, AllocError>
    ensures { (app : App) → IfOk parser.entry (λ before. app_of before ≡ app)
        → IfOk result (λ more. app_of more ≡ with_subcommand app (run_app name.entry.now).top) }
{
    match parser {
        Ok(parser) => with_command(parser, with_run(alloc, name)),
        Err(error) => Err(error),
    }
}

/// The parser with one more command, where there was memory for it.
pub fn with_command<'a>(
    parser: Command<'a>,
    command: Result<Command<'a>, AllocError>,
) -> Result<Command<'a>, AllocError>
    ensures { (app : App) → IfOk command.entry (Builds app)
        → IfOk result (λ more. app_of more ≡ with_subcommand (app_of parser.entry) app.top) }
{
    match command {
        Ok(command) => parser.subcommand(command),
        Err(error) => {
            drop(parser);
            Err(error)
        }
    }
}

/// The parser of a program of that name that has no help and no version, and wants a command. It
/// has no command yet.
pub fn bare<'a>(alloc: Global, name: &'a str) -> Command<'a>
    ensures { app_of result ≡ bare_app name.entry.now }
{
    Command::new(alloc, name)
        .no_binary_name(true)
        .disable_help_flag(true)
        .disable_help_subcommand(true)
        .subcommand_required(true)
}

/// A command of one file, whose id is `first`.
pub fn with_file<'a>(alloc: Global, name: &'a str) -> Result<Command<'a>, AllocError>
    ensures { IfOk result (Builds (file_app name.entry.now)) }
{
    Command::new(alloc, name).arg(file(alloc, "first"))
}

/// A command of two files, which takes bounds.
fn with_run<'a>(alloc: Global, name: &'a str) -> Result<Command<'a>, AllocError>
    ensures { IfOk result (Builds (run_app name.entry.now)) }
{
    with_files(alloc, name)?
        .arg(bound(alloc, "depth", DEPTH_LIMIT))?
        .arg(bound(alloc, "steps", STEP_LIMIT))
}

/// A command of two files.
fn with_files<'a>(alloc: Global, name: &'a str) -> Result<Command<'a>, AllocError>
    ensures { IfOk result (Builds (files_app name.entry.now)) }
{
    match with_file(alloc, name) {
        Ok(command) => command.arg(file(alloc, "second")),
        Err(error) => Err(error),
    }
}

/// A command of one number, up to `NUMBER_LIMIT`.
fn with_number<'a>(alloc: Global, name: &'a str) -> Result<Command<'a>, AllocError>
    ensures { IfOk result (Builds (number_app name.entry.now)) }
{
    let number = file(alloc, "first").value_parser(ValueParser::unsigned(
        0,
        u64::from(NUMBER_LIMIT),
    ));
    Command::new(alloc, name).arg(number)
}

/// A word in its place.
fn file<'a>(alloc: Global, id: &'a str) -> Arg<'a>
    ensures rule { rule_of result ≡ file_rule id.entry.now }
    ensures local { result.global ≡ false }
{
    Arg::new(alloc, id).required(true)
}

/// The option `--NAME V`, where V is a number from 1 to `most`. Its id is the name.
///
/// clap's parser of `u32` would take `-0`, which isn't a number here.
pub fn bound<'a>(alloc: Global, name: &'a str, most: u32) -> Arg<'a>
    ensures rule { rule_of result ≡ option_rule name.entry.now most }
    ensures local { result.global ≡ false }
{
    Arg::new(alloc, name)
        .long(name)
        .value_parser(ValueParser::unsigned(1, u64::from(most)))
}
