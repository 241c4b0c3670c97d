//! What is known of each function of a C file, for the check of decided tests.
//!
//! It is a search: nothing depends on what it finds, since a plan that isn't right is refused by the
//! check. Read `specs/Searched.antt` for the little that is said of it.
#![tactic(auto)]

mod calls;
mod depths;
mod found;
mod guess;
mod keeping;
mod lines;
mod marks;
mod outside;
mod plans;
mod rounds;
mod spots;
mod visits;
mod wanted;
mod work;

pub use rounds::find_plan;
pub use spots::Spot;
