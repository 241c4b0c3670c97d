//! How long the text of code may be.

/// The most bytes of a code text that is read.
pub const TEXT_LIMIT: usize = 268_435_456;
