//! Operands of the expressions of chart texts, and how operators join them.
//!
//! `chart_reader` reads the tokens; what is built of them stands here.
#![tactic(auto)]

mod operands;
mod operators;

pub use operands::{Operand, Tail, with_tail};
pub use operators::{bin_word, un_word};
