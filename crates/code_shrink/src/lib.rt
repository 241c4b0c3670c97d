//! Smaller code of the same meaning.
//!
//! The public call is `shrink`, whose one clause is `IsShrunk` of `specs/Shrunk.antt`;
//! `shrink_with_origins` tells besides which procedures of the code those of the smaller code were.
//! Read `specs/Neat.antt`, what neat code is; `specs/Smaller.antt` and `specs/Whole.antt`, how code
//! is made smaller; and `specs/Follows.antt`, when a procedure does what another one does.
#![tactic(auto)]

mod constants;
mod kept;
mod laws;
mod live;
mod numbers;
mod origins;
mod places;
mod renamed;
mod search;
mod shrinking;
mod smaller;
mod tables;
mod ways;

pub use laws::{
    copies_run_as_their_code, shrunk_code_runs_as_its_code, what_is_reached_is_shrunk_code,
};
pub use numbers::number_at;
pub use renamed::{copy_cond, renamed_instr};
pub use shrinking::{Shrunk, shrink, shrink_with_origins};
pub use tables::with_procedures;
