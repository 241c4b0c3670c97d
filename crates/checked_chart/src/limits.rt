//! How many pairs of a list and a transition a chart may have.

/// The greatest number of pairs of a list of a state and a transition that stands in it or in a
/// junction reached from it.
///
/// Source: this project's choice.
pub const PAIR_LIMIT: u32 = 32_768;
