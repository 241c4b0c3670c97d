//! Faster code with the same runs, by passes from code to code.
//!
//! The public call is `faster`, whose one clause is `IsFaster` of `specs/Passed.antt`: which passes
//! there are, and what each of them makes of code and of tags. Read `specs/Tags.antt` besides, what
//! is told of the procedures of the code that is made.
#![tactic(auto)]

mod chain;
mod keys;
mod laws;
mod made;
mod notes;
mod pure;
mod steps;
mod tag;
mod tagging;

pub use chain::faster;
pub use laws::{
    passed_code_has_the_same_runs, passes_keep_what_tags_tell,
    tags_name_procedures_states_and_events_of_the_code,
};
pub use made::Faster;
pub use tag::{EventTag, Tag};
