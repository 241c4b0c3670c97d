//! Sends that find no depth left, led to a procedure that calls nothing.
//!
//! The public call is `cut_sends`. Read `specs/Depths.antt`, what levels of procedures are, and how
//! the code is made by them.
#![tactic(auto)]

mod checking;
mod cutting;
mod finding;
mod laws;
mod levels;

pub use cutting::cut_sends;
pub use laws::cut_code_has_the_same_runs;
