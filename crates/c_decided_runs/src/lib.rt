//! A file of C with decided tests runs as the file does.
//!
//! Read `specs/Runs.antt` for when a plan fits together between events, and for what is refused at
//! once, and `specs/Checks.antt` for how that is checked.
#![tactic(auto)]

mod checks;
mod laws;

pub use checks::{Outside, is_between};
pub use laws::{checked_plans_fit_between, decided_tests_keep_runs};
