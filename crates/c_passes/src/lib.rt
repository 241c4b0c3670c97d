//! The functions of the C of code: those that are written for it, and what passes make of them.
//!
//! Read `specs/Passed.antt` for the passes, and `specs/Standing.antt` for what holds of what they
//! make.
#![tactic(auto)]

mod chain;
mod deciding;
mod laws;
mod looping;
mod spots;
mod tidying;
mod types;
mod written;

pub use chain::functions;
pub use laws::passed_files_stand_for_it;
