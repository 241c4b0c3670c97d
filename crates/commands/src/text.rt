//! A text that is written as the answer of a command.
ghost use Rattle.commands.specs.Call.{output_of};
ghost use Rattle.commands.specs.Texts.{WritesMade};

use crate::file::FileEnd;
use flow_base::{Sink, write_all};

/// How a command ends that writes one text, which it makes of a file.
#[derive(Clone, Copy)]
pub enum TextEnd<R> {
    /// The whole text was written.
    Done,
    /// Nothing comes of the file, and nothing was written.
    Unread(FileEnd<R>),
    /// A write failed.
    Write,
}

/// Writes the text that was made of a file, unless nothing comes of the file.
pub fn write_made<R: Drop, O: Sink>(made: Result<String, FileEnd<R>>, out: &mut O) -> TextEnd<R>
    ensures { WritesMade (output_of O.Sink out.old) (output_of O.Sink out.new) made result }
{
    let text = match made {
        Ok(text) => text,
        Err(end) => return TextEnd::Unread(end),
    };
    match write_all(out, text.as_bytes()) {
        Ok(()) => TextEnd::Done,
        Err(_) => TextEnd::Write,
    }
}
