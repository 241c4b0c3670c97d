//! Why reading stops.

ghost use Rattle.std.specs.Prelude.{◌≡◌};
ghost use Rattle.token_grammar.specs.declared.fault.ReadError.TheVariants.{Memory};

use std::alloc::{AllocError, AllocFailed};
use thiserror::Error;

/// The things whose number is limited.
#[derive(Clone, Copy, Debug, PartialEq, Eq)]
pub enum Thing {
    /// States of a chart, counting its root.
    States,
    /// Junctions of a chart.
    Junctions,
    /// Transitions of a chart.
    Transitions,
    /// Data of a chart.
    Variables,
    /// Events of a chart.
    Events,
    /// Statements of a block.
    Statements,
    /// Operators and opening parentheses of an expression.
    Operators,
    /// States, junctions, transitions, statements, data and events together.
    Items,
}

/// What is wrong with the token at hand.
#[derive(Clone, Copy, Debug, PartialEq, Eq, Error)]
pub enum TokenFault {
    /// It doesn't continue the text before it.
    #[error("unexpected token or end of the text")]
    Expected,
    /// It is a number with over 36 digits, or with a mantissa of 2^99 or more.
    #[error("number too long")]
    LiteralTooLong,
    /// It is a number that isn't exact at any fraction of up to 32 bits.
    #[error("no binary fraction of at most 32 bits")]
    LiteralNotBinary,
    /// It begins a state that is nested too deep.
    #[error("state nested too deep")]
    NestTooDeep,
    /// It begins one more of these things than the limit allows.
    #[error("one too many of its sort")]
    TooMany(Thing),
}

/// Why reading stopped. The token at which it stopped is the first that is left.
#[derive(Debug, Drop, Error)]
pub enum ReadError {
    /// Memory ran out.
    #[error("out of memory")]
    Memory,
    /// The token at hand, or the end, is at fault.
    #[error("{0}")]
    Fault(TokenFault),
}

impl From<AllocError> for ReadError {
    ghost from_gives = { λ _ e. e ≡ Memory };

    fn from(_e: AllocError) -> ReadError {
        ReadError::Memory
    }
}

impl<T: Drop> From<AllocFailed<T>> for ReadError {
    ghost from_gives = { λ _ e. e ≡ Memory };

    fn from(_e: AllocFailed<T>) -> ReadError {
        ReadError::Memory
    }
}
