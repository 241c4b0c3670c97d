//! The C of expressions and assignments, as lines.
#![tactic(auto)]

mod arithmetic;
mod assignments;
mod decisions;
mod ends;
mod expressions;
mod leaves;
mod lines;
mod locals;
mod operand;
mod operators;
mod outside_tests;
mod precision;
mod quotients;
mod sorts;
mod wraps;

pub use assignments::write_assign;
pub use expressions::write_test;
pub use lines::{BAD, NO_EVENT, put, tell_fault, write_fault};
pub use outside_tests::{all_inputs, is_begun, is_unknown, leading, leading_events};
