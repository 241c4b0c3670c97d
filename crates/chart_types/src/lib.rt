//! The first fault of the types of a resolved chart, and what its literals and operators denote.
//!
//! Read `specs/Types.antt`: which faults there are, and where.
#![tactic(auto)]

mod expressions;
mod faults;
mod inits;
mod laws;
mod literals;
mod names;
mod operators;
mod pass;
mod statements;
mod transitions;

pub use laws::{expressions_with_a_sort_have_no_fault, literals_in_range_have_sorts};
pub use literals::signed_literal;
pub use operators::op_of;
pub use pass::first_type_fault;
