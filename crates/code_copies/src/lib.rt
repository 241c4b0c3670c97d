//! Copies of procedures for what is known where they begin: their home, the current event, and that
//! the root is active.
//!
//! Read `specs/Facts.antt`, what can be known, and `specs/Follows.antt`, when a copy does what its
//! procedure does; `specs/Rooted.antt`, where the root is active; `specs/Made.antt`, how code is
//! made of copies; `specs/SameRuns.antt` has what passes from code to code share.
#![tactic(auto)]

mod asking;
mod checking;
mod equal;
mod handing;
mod known;
mod laws;
mod making;
mod plan;
mod root_code;
mod root_facts;
mod searching;
mod serving;
mod tested;

pub use asking::ask;
pub use checking::is_right;
pub use known::{EventFact, Facts, implies, told};
pub use laws::{
    code_that_asks_for_events_has_the_same_runs, code_whose_start_marks_the_root_is_rooted,
    copies_by_a_right_plan_have_the_same_runs, copies_for_facts_run_as_their_code,
    passes_with_the_same_runs_compose,
};
pub use making::made;
pub use plan::{CopyKey, Place, Plan, ProcedureCopy};
pub use searching::{
    COPY_LIMIT, COPY_ROOM, FoundCopy, PLACE_LIMIT, copies_allowed, find, find_by_home, number_of,
    rank_at, ranks_of,
};
pub use tested::tested_events;
