//! Why a text is refused.
ghost use Rattle.std.specs.Prelude.{◌≡◌, ◌+◌, ◌*◌, ◌≤◌, ◌++◌, length};
ghost use Rattle.arrayvec.specs.ArrayString.{array_string_len};
ghost use Rattle.code_text.specs.Form.{fault_number, fault_name, fault_line, fault_head, fault_text};

use arrayvec::ArrayString;
use code_fields::push_line;
use code_language::{CODE_FAULT_ROOM, CodeFault};
use itoa::Buffer;
use thiserror::Error;

/// Room for line, number and name: two numbers, the longest name and eight bytes between them.
const HEAD_ROOM: usize = 2 * 40 + 11 + 8;

/// Room for the text of a fault: that, a space and the fault of the code.
pub const FAULT_ROOM: usize = HEAD_ROOM + 1 + CODE_FAULT_ROOM;

/// Why a text isn't code. Lines are counted from 1.
#[derive(Clone, Copy, Debug, PartialEq, Eq, Error)]
#[error("{}", self.text())]
pub enum CodeTextFault {
    /// The first whole line that can't stand where it is.
    BadLine(u32),
    /// Every whole line can stand, and the text ends before the line `end` is whole.
    Truncated,
    /// A byte stands after the line `end`; this is the line after it.
    Trailing(u32),
    /// The first line begins with `flowcode ` and names no format.
    Version,
    /// The text has over `TEXT_LIMIT` bytes.
    TextTooLong,
    /// The text is read, and its code isn't well formed.
    Form(CodeFault),
    /// Memory ran out.
    Memory,
}

impl CodeTextFault {
    /// The number that stands before the name in a refusal; 0 for `Memory`, which is no refusal.
    pub fn number(self) -> u8
        ensures { result ≡ fault_number self }
    {
        match self {
            CodeTextFault::BadLine(_) => 1,
            CodeTextFault::Truncated => 2,
            CodeTextFault::Trailing(_) => 3,
            CodeTextFault::Version => 4,
            CodeTextFault::TextTooLong => 5,
            CodeTextFault::Form(_) => 6,
            CodeTextFault::Memory => 0,
        }
    }

    /// The name, as a refusal prints it.
    pub fn name(self) -> &'static str
        ensures name { result.now ≡ fault_name self }
        ensures short { length result.now ≤ 11 }
    {
        match self {
            CodeTextFault::BadLine(_) => "BadLine",
            CodeTextFault::Truncated => "Truncated",
            CodeTextFault::Trailing(_) => "Trailing",
            CodeTextFault::Version => "Version",
            CodeTextFault::TextTooLong => "TextTooLong",
            CodeTextFault::Form(_) => "Form",
            CodeTextFault::Memory => "Memory",
        }
    }

    /// The line that it names, if it names one.
    pub fn line(self) -> Option<u32>
        ensures { result ≡ fault_line self }
    {
        match self {
            CodeTextFault::BadLine(line) | CodeTextFault::Trailing(line) => Some(line),
            CodeTextFault::Truncated
            | CodeTextFault::Version
            | CodeTextFault::TextTooLong
            | CodeTextFault::Form(_)
            | CodeTextFault::Memory => None,
        }
    }

    /// The text of the fault, as standard error gets it. It takes no memory.
    pub fn text(&self) -> ArrayString<FAULT_ROOM>
        ensures { result.bytes ≡ fault_text self.now }
    {
        let mut text = ArrayString::new();
        match self {
            CodeTextFault::Memory => text.push_str("out of memory"),
            CodeTextFault::Form(fault) => {
                self.push_head(&mut text);
                text.push_str(" ");
                text.push_str(fault.text().as_str());
            }
            CodeTextFault::BadLine(_)
            | CodeTextFault::Truncated
            | CodeTextFault::Trailing(_)
            | CodeTextFault::Version
            | CodeTextFault::TextTooLong => self.push_head(&mut text),
        }
        text
    }

    /// Appends line, number and name to an empty text.
    fn push_head(&self, text: &mut ArrayString<FAULT_ROOM>)
        requires { array_string_len text.old ≡ 0 }
        ensures bytes { text.new.bytes ≡ text.old.bytes ++ fault_head self.now }
        ensures short { array_string_len text.new ≤ HEAD_ROOM }
    {
        let mut digits = Buffer::new();
        text.push_str("code");
        push_line(text, self.line());
        text.push_str(": ");
        text.push_str(digits.format(self.number()));
        text.push_str(" ");
        text.push_str(self.name());
    }
}
