//! Code that passes have made.
use crate::tag::Tag;
use code_language::Code;

/// Code that passes have made, and for what its procedures are.
///
/// Source: this project's choice.
#[derive(Drop)]
pub struct Faster {
    /// The code.
    pub code: Code,
    /// For each of its procedures for what it is.
    pub tags: Vec<Tag>,
}
