//! Limits of the numbers and of the search for them.

/// The greatest number that is looked for.
///
/// Source: this project's choice.
pub const COUNT_LIMIT: u32 = 1_000_000;

/// The most rounds of the search, in each of which it looks at all places.
///
/// Source: this project's choice.
pub(crate) const ROUND_LIMIT: usize = 1_000;

/// The most places at which the search looks in all rounds together.
///
/// Source: this project's choice.
pub(crate) const LOOK_LIMIT: usize = 20_000_000;
