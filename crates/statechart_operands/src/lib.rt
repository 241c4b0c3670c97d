//! Reads the expressions of a statechart text.
//!
//! `expr` reads an expression as the grammar of the crate `statechart_grammar` spells it, or finds
//! the fault of the first token that doesn't continue one.
#![tactic(auto)]

mod atoms;
mod expressions;
mod operands;
mod temporal;

pub use expressions::expr;
pub use temporal::time_of;
