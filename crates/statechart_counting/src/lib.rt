//! The counters of a statechart are counters of the chart for which it stands.
//!
//! Read `specs/Counters.antt` first. The public calls are the laws.
#![tactic(auto)]

mod laws;

pub use laws::counters_are_written_out;
