//! Equal procedures made one.
//!
//! The public call is `merge`. Read `specs/Merged.antt`, which procedures are equal, and how the
//! code is made of them.
#![tactic(auto)]

mod equal;
mod finding;
mod laws;
mod merging;
mod sums;

pub use laws::code_whose_equal_procedures_are_one_has_the_same_runs;
pub use merging::{Merged, merge};
