//! The parser of the words.
ghost use Rattle.std.specs.Prelude.{◌≡◌, IfOk};
ghost use Rattle.clap.specs.Words.{app_of};
ghost use Rattle.command_words.specs.Parser.{Builds};
ghost use Rattle.c_program.specs.Parser.{program_app, text_app};

use clap::Command;
use command_words::{bare, bound, with_command, with_file};
use flow_base::{DEPTH_LIMIT, STEP_LIMIT};
use std::alloc::{AllocError, Global};

/// The parser of the program's words.
pub(crate) fn program<'a>(alloc: Global) -> Result<Command<'a>, AllocError>
    ensures { IfOk result (λ parser. app_of parser ≡ program_app) }
{
    let parser = with_command(bare(alloc, "chart_to_c"), with_text(alloc, "header"))?;
    with_command(parser, with_text(alloc, "source"))
}

/// A command that writes one text of a chart: it has one file, and takes bounds.
fn with_text<'a>(alloc: Global, name: &'a str) -> Result<Command<'a>, AllocError>
    ensures { IfOk result (Builds (text_app name.entry.now)) }
{
    with_file(alloc, name)?
        .arg(bound(alloc, "depth", DEPTH_LIMIT))?
        .arg(bound(alloc, "steps", STEP_LIMIT))
}
