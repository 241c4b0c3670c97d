//! The lines of the trace of a run.
//!
//! Read `specs/Trace.antt` first: the line of a start or of an event.
#![tactic(auto)]

mod pieces;
mod trace;
mod trace_parts;
mod trace_states;

pub use pieces::{PIECE_SIZE, Pieces};
pub use trace::{put_full, put_trace, write_full, write_trace};
