//! The tokens of a statechart text that are not read yet, and the productions without expressions:
//! names, paths, targets, numbers and types.
//!
//! Each method reads a production of the crate `statechart_grammar`, as its contract says: what was
//! read and what is left, or the fault of the first token that is left.
#![tactic(auto)]

mod counts;
mod destinations;
mod group;
mod numbers;
mod operators;
mod reader;
mod types;
mod words;

pub use counts::{Counts, one_more};
pub use group::Group;
pub use numbers::NumberToken;
pub use reader::Reader;
