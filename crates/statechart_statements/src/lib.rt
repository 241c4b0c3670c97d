//! Reads the statements, the blocks, the cases and the actions of a statechart text.
//!
//! Each function reads a production of the crate `statechart_grammar`, as its contract says: what was
//! read and what is left, or the fault of the first token that is left.
#![tactic(auto)]

mod actions;
mod blocks;
mod cases;
mod done;
mod events;
mod statements;
mod symbols;

pub use actions::{action_behind, cases_word, plain_word};
pub use blocks::block;
pub use cases::maybe_when;
pub use done::Done;
