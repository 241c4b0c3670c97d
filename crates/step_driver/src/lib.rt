//! Drives an engine over an event file, and writes its trace line by line. What it shares with a
//! driver of other steps: `next_line`, and definitions over any steps that lines of a file say.
//!
//! Read `specs/Traces.antt` and `specs/Driving.antt` first: what the trace of a run is, and what
//! was written where the driver answers so.
#![tactic(auto)]

mod driver;
mod events;
mod lines;

pub use driver::{DriveEnd, drive};
pub use events::set_inputs;
pub use lines::{NoLine, next_line};
