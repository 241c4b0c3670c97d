//! C whose tests are decided by what is known of the struct where they stand.
//!
//! Read `specs/Facts.antt` for what is known at a place, `specs/Decided.antt` for the plan and for
//! what decided tests are, `specs/Walk.antt` for how statements are gone through, and
//! `specs/Made.antt` for a file with decided tests and what holds of it.
#![tactic(auto)]

mod by_number;
mod file;
mod functions;
mod inquiries;
mod laws;
mod plan;
mod steps;
mod walking;

pub use by_number::{all_of, at, brought, covers_by, framed_by, is_nowhere, joined_by};
pub use file::decided_functions;
pub use functions::decided_function;
pub use inquiries::same_type;
pub use laws::{decided_tests_keep_calls, tests_of_small_bodies_are_decided};
pub use plan::{ByNumber, Cases, Facts, FunctionFacts, Plan};
pub use steps::{after_set, after_store, alone, by_value, copied_facts, joined_facts, test};
pub use walking::{Unfit, find};
