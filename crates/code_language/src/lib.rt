//! Code: procedures of instructions, what it means, which code is well formed, what a run of it
//! costs, and how a run of it is compared with a piece of work of a run by the rules.
//!
//! `accept` makes a `Code` exactly of what is well formed, and `Code::of_well_formed` of what is
//! proved to be. Read `specs/Instrs.antt` and `specs/Code.antt`, what code is; `specs/Machine.antt`
//! and `specs/Reactions.antt`, what it means; `specs/Measures.antt`, its height and its work; and
//! `specs/WellFormed.antt`, its faults.
//!
//! - `cost_laws`: how many instructions an event takes and how many frames there are at once, and
//!   what is true at each moment, which the machine that runs code relies on. Read
//!   `specs/Ahead.antt`, where a run stands after some steps; `specs/Left.antt` and
//!   `specs/Room.antt`, what the counts go by; and `specs/Moments.antt`, what is true at each
//!   moment.
//! - `simulation_laws`: a stretch of a run of code leads from one state of the machine to another,
//!   or to a fault. Code meets a piece of work where it leads to a state that goes with the answer
//!   of the work, in the world of its end, or to its fault. Read `specs/Reach.antt`. The lemmas, one
//!   for each instruction and one for each way in which work is joined, are for the compilers'
//!   proofs.
#![tactic(auto)]

mod acceptance;
mod code;
mod cost_laws;
mod fault;
mod faults;
mod heights;
mod instr;
mod laws;
mod limits;
mod naming;
mod repeats;
mod simulation_laws;
mod tables;
mod typing;
mod works;

pub use acceptance::accept;
pub use code::{Code, CodeParts, RawCode, RawState};
pub use cost_laws::{events_take_few_frames, events_take_few_instructions, moments_are_sound};
pub use fault::{CODE_FAULT_ROOM, CodeEnd, CodeFault, CodeKind};
pub use instr::{Cond, Instr};
pub use laws::{
    a_code_has_one_first_fault, a_code_is_well_formed_or_has_a_fault, a_run_has_one_end,
    well_formed_code_is_sound,
};
pub use limits::{HEIGHT_LIMIT, INSTR_LIMIT, PROC_LIMIT, WORK_LIMIT};
pub use simulation_laws::{
    code_that_meets_work_ends_as_it, instructions_stand_at_their_places,
    play_finds_the_pending_notes,
};
