//! Code without notes: in place of each `Play` a new procedure is called that runs the notes.
//!
//! The public call is `without_notes`, whose one clause is `IsNoteless` of `specs/Whole.antt`. Read
//! `specs/Noteless.antt`, how code without notes is made where it is known which notes each `Play`
//! runs, and when what is known is right. The module `searching` finds what is known, and
//! `checking` and `played` check it; what is proved rests on the check alone.
#![tactic(auto)]

mod checking;
mod laws;
mod lists;
mod making;
mod noteless;
mod plan;
mod played;
mod searching;

pub use laws::code_by_a_right_plan_of_notes_has_the_same_runs;
pub use noteless::{Noteless, without_notes};
pub use plan::{NOTE_LIMIT, PLAYER_LIMIT};
