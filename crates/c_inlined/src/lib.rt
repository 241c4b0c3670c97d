//! Bodies of functions of the C in place of calls of them: the pass, and what holds of it.
//!
//! Read `specs/Continued.antt` for statements that go on where they return, `specs/Inlined.antt` for
//! one function in which calls are replaced, and `specs/Files.antt` for a file of them.
#![tactic(auto)]

mod continuing;
mod deciding;
mod files;
mod functions;
mod inlining;
mod joining;
mod laws;
mod reading;
mod search;
mod sizes;

pub use files::inlined_functions;
pub use laws::{inlined_files_run_as_before, inlined_functions_run_as_before};
