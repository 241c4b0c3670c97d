//! Nets of charts: several charts that send each other events through bounded queues.
//!
//! Read `specs/Nets.antt`, `specs/Sending.antt`, `specs/NetRuns.antt` and `specs/NetLaws.antt`
//! first: what a run of a net is, and what holds of every run. `specs/NetParts.antt` and
//! `specs/Moving.antt` say how the code stands for a net, and what it does at a step.
#![tactic(auto)]

mod driver;
mod laws;
mod move_lines;
mod moves;
mod net;
mod ring;
mod schedule;
mod seat;
mod sending;

pub use driver::{NetEnd, net_drive};
pub use laws::net_law;
pub use net::Net;
