//! What ends a run early.

use thiserror::Error;

/// What ends a run early.
#[derive(Clone, Copy, Debug, PartialEq, Eq, Error)]
pub enum Fault {
    /// An event was sent deeper than the bound allows.
    #[error("an event sent too deep")]
    Depth,
    /// The steps of one event are used up.
    #[error("out of steps")]
    Steps,
    /// A value doesn't fit the datum of that number.
    #[error("value out of range of datum {0}")]
    Overflow(u32),
    /// A divisor is 0.
    #[error("division by zero")]
    Zero,
}
