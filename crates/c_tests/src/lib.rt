//! Which calls of C functions need a test of what they gave.
//!
//! The public call is `tests_of`. Which instructions can fail is `can_fail` of `c_functions`; the
//! search for the procedures that have one is not trusted, and a check decides.
#![tactic(auto)]

mod checking;
mod failing;
mod needed;
mod spreading;

pub use needed::tests_of;
