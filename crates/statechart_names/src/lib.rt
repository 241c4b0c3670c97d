//! What names mean where they stand.
//!
//! Read `specs/Scope.antt` of `statechart_meaning` first: each call here answers what a definition there
//! says.
#![tactic(auto)]

mod data;
mod meaning;
mod scope;
mod states;

pub use meaning::{Meaning, meaning_of};
pub use scope::{Declared, Scope};
pub use states::{first_number, lowest, number_behind, state_count};
