//! A function of the C that ends by a call of itself is a loop: the pass, and what holds of it.
//!
//! Read `specs/Results.antt` for when statements give a result back, and `specs/Loops.antt` for the
//! pass.
#![tactic(auto)]

mod deciding;
mod expressions;
mod functions;
mod known;
mod laws;
mod turns;

pub use functions::with_loop;
pub use laws::loops_run_as_calls;
