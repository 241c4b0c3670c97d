//! Statements of the C without what nobody needs: the pass, and what holds of it.
//!
//! Read `specs/Pruned.antt` for the pass, `specs/Tests.antt` for how a test is turned round, and
//! `specs/Ends.antt` for which statements always return.
#![tactic(auto)]

mod ends;
mod functions;
mod laws;
mod pruning;
mod tests;

pub use functions::pruned_function;
pub use laws::pruned_files_run_as_before;
