//! Why a net text is refused.
ghost use Rattle.std.specs.Prelude.{◌≡◌, ◌+◌, ◌*◌, ◌≤◌, ◌++◌, length};
ghost use Rattle.arrayvec.specs.ArrayString.{array_string_len};
ghost use Rattle.net_text.specs.Faults as spec;

use arrayvec::ArrayString;
use code_fields::push_line;
use itoa::Buffer;
use thiserror::Error;

/// Room for the text of a fault: two numbers, the longest name and seven bytes between them.
pub const NET_FAULT_ROOM: usize = 2 * 40 + 11 + 7;

/// Why a text isn't a net. Lines are counted from 1.
#[derive(Clone, Copy, Debug, PartialEq, Eq, Error)]
#[error("{}", self.text())]
pub enum NetFault {
    /// The first whole line that can't stand where it is.
    BadLine(u32),
    /// Every whole line can stand, and the text ends before the line `end` is whole.
    Truncated,
    /// A byte stands after the line `end`; this is the line after it.
    Trailing(u32),
    /// The first line of a route for which `route_of` gives none. `read_net` doesn't answer it,
    /// since it doesn't know what the charts declare.
    BadRoute(u32),
    /// The first line of a chart that has the name of an earlier one.
    NameTwice(u32),
    /// The text has over `NET_TEXT_LIMIT` bytes.
    TextTooLong,
    /// Memory ran out.
    Memory,
}

impl NetFault {
    /// The number that stands before the name in a refusal; 0 for `Memory`, which is no refusal.
    pub fn number(self) -> u8
        ensures { result ≡ spec.fault_number self }
    {
        match self {
            NetFault::BadLine(_) => 1,
            NetFault::Truncated => 2,
            NetFault::Trailing(_) => 3,
            NetFault::BadRoute(_) => 4,
            NetFault::NameTwice(_) => 5,
            NetFault::TextTooLong => 6,
            NetFault::Memory => 0,
        }
    }

    /// The name, as a refusal prints it.
    pub fn name(self) -> &'static str
        ensures name { result.now ≡ spec.fault_name self }
        ensures short { length result.now ≤ 11 }
    {
        match self {
            NetFault::BadLine(_) => "BadLine",
            NetFault::Truncated => "Truncated",
            NetFault::Trailing(_) => "Trailing",
            NetFault::BadRoute(_) => "BadRoute",
            NetFault::NameTwice(_) => "NameTwice",
            NetFault::TextTooLong => "TextTooLong",
            NetFault::Memory => "Memory",
        }
    }

    /// The line that it names, if it names one.
    pub fn line(self) -> Option<u32>
        ensures { result ≡ spec.fault_line self }
    {
        match self {
            NetFault::BadLine(line)
            | NetFault::Trailing(line)
            | NetFault::BadRoute(line)
            | NetFault::NameTwice(line) => Some(line),
            NetFault::Truncated | NetFault::TextTooLong | NetFault::Memory => None,
        }
    }

    /// The text of the fault, as standard error gets it. It takes no memory.
    pub fn text(&self) -> ArrayString<NET_FAULT_ROOM>
        ensures { result.bytes ≡ spec.fault_text self.now }
    {
        let mut text = ArrayString::new();
        match self {
            NetFault::Memory => text.push_str("out of memory"),
            NetFault::BadLine(_)
            | NetFault::Truncated
            | NetFault::Trailing(_)
            | NetFault::BadRoute(_)
            | NetFault::NameTwice(_)
            | NetFault::TextTooLong => self.push_words(&mut text),
        }
        text
    }

    /// Appends line, number and name to an empty text.
    fn push_words(&self, text: &mut ArrayString<NET_FAULT_ROOM>)
        requires { array_string_len text.old ≡ 0 }
        ensures { text.new.bytes ≡ text.old.bytes ++ spec.fault_words self.now }
    {
        let mut digits = Buffer::new();
        text.push_str("net");
        push_line(text, self.line());
        text.push_str(": ");
        text.push_str(digits.format(self.number()));
        text.push_str(" ");
        text.push_str(self.name());
    }
}
