//! The lines of a text, and the number of one in a fault.
ghost use Rattle.std.specs.Prelude.{◌≡◌, ◌≤◌, ◌<◌, ◌+◌, ◌++◌, [], length, IfSome, MatchOption};
ghost use Rattle.arrayvec.specs.ArrayString.{array_string_len};
ghost use Rattle.code_fields.specs.Lines.{cut_of, line_then, line_words};

use crate::cuts::{Parts, cut_at};
use arrayvec::ArrayString;
use itoa::Buffer;

/// The first line of a text, and what stands after it.
pub fn next_line(text: &[u8]) -> Option<Parts<'_>>
    ensures line { MatchOption result (cut_of text.now ≡ record { lines = []; rest = text.now })
        (λ parts. cut_of text.now ≡ line_then parts.front.now (cut_of parts.rest.now)) }
    ensures shorter { IfSome result (λ parts. length parts.rest.now < length text.now) }
{
    cut_at(text, b'\n')
}

/// Appends a space and the line, if there is one. There must be room for both.
pub fn push_line<const ROOM: usize>(text: &mut ArrayString<ROOM>, line: Option<u32>)
    requires { array_string_len text.old + 1 + 40 ≤ ROOM }
    ensures bytes { text.new.bytes ≡ text.old.bytes ++ line_words line }
    ensures short { array_string_len text.new ≤ array_string_len text.old + 1 + 40 }
{
    if let Some(line) = line {
        let mut digits = Buffer::new();
        text.push_str(" ");
        text.push_str(digits.format(line));
    }
}
