//! The functions of the file of code, as lines of C.
//!
//! The public call is `function`, whose clause cites `HasFunction` of `specs/Functions.antt`. Read
//! `specs/Appending.antt`, what is appended for a plan and for a test, and `specs/Parts.antt`, what
//! is written of the instructions between two places of a procedure. A plan isn't built: for each
//! instruction the lines of its statements are appended.
#![tactic(auto)]

mod calls;
mod changes;
mod conditions;
mod functions;
mod helpers;
mod instructions;
mod parts;
mod pieces;
mod places;
mod plays;
mod procedures;
mod starts;

pub use functions::function;
