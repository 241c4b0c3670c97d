//! Reads the transitions and the junctions of a statechart text.
//!
//! Each function reads a production of the crate `statechart_grammar`, as its contract says: what was
//! read and what is left, or the fault of the first token that is left.
#![tactic(auto)]

mod junctions;
mod transitions;

pub use junctions::junction;
pub use transitions::keyword_trans;
