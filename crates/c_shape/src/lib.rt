//! What the C of a file is written for.
//!
//! `FileShape` has the states and the names of code, the bounds of a run, which faults are tested,
//! where the fields and the functions stand that are none of data and procedures, and the tests of
//! states. Read `specs/FileShapes.antt`, what it is as contracts see it, in the words of
//! `c_functions`, and `specs/Parts.antt`, what is known of its parts.
#![tactic(auto)]

mod fault_tests;
mod file_shape;
mod notes;
mod pairs;
mod ranks;
mod state_tests;
mod words;

pub use fault_tests::Tests;
pub use file_shape::FileShape;
pub use pairs::both_made;
pub use words::number;
