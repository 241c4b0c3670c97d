//! Tests of passes over code, and of which calls of C functions are tested: `code_results`,
//! `code_notes`, `code_depths`, `code_pure_copies` and `c_tests`. What no contract says, worked by
//! hand: what is found in a small code, and where nothing is.
//!
//! They stand apart from these crates, since a crate that has tests is proved once more with them.
#![tactic(auto)]

#[cfg(test)]
mod c_calls;
#[cfg(test)]
mod copies;
#[cfg(test)]
mod depths;
#[cfg(test)]
mod notes;
#[cfg(test)]
mod results;
#[cfg(test)]
mod setup;
