//! The body of a function of the C is placed among the statements of another one: its parameters
//! are set first, and its locals get other numbers.
//!
//! Read `specs/Placing.antt` for what is placed, and for what it does.
#![tactic(auto)]

mod laws;
mod placing;
mod setting;

pub use laws::placed_statements_do_the_same;
pub use placing::{NotPlaced, placed};
pub use setting::with_parameters;
