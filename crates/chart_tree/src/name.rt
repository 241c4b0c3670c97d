//! Names, paths and numbers as they are written.
use flow_base::{List, Text};
use token_grammar::Span;

/// A name, with the place of its first byte.
#[derive(Drop)]
pub struct NameText {
    /// The name: a letter, and letters, digits and underscores, at most 63 bytes.
    pub text: Text,
    /// Where it stands.
    pub at: Span,
}

/// A path: the name of a state, and below it names of children. It has at least one name.
#[derive(Drop)]
pub struct PathText {
    /// The names from the top down.
    pub names: List<NameText>,
}

/// A number as it is written: `units / 10^places`, and how many bits are to be kept after the
/// point where a `q` says so.
#[derive(Clone, Copy, PartialEq, Eq)]
pub struct LitText {
    /// The digits as a whole number.
    pub units: u128,
    /// How many of the digits stand after the point.
    pub places: u8,
    /// The bits after the point that `q` asks for, 0 to 32.
    pub q: Option<u8>,
}
