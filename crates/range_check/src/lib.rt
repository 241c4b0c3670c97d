//! Whether a certificate of ranges is closed, cell by cell, and which claims it proves.
//!
//! Read the definitions in this order: `specs/Went.antt`, where processing may end;
//! `specs/Checks.antt`, cells that are closed; `specs/Places.antt`, the worlds before the start
//! and those between two events; and `specs/Runs.antt`, what all that means for runs.
#![tactic(auto)]

mod check;
mod claims;
mod closing;
mod places;
mod processing;

pub use check::process_ends;
pub use claims::unproved_at;
pub use closing::{Method, is_closed, start_ends};
pub use places::freed;
