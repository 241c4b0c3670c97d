//! Lines of C that aren't too long.
//!
//! Read `specs/Broken.antt`, where a line is broken at a blank; `specs/Cut.antt`, where what has no
//! blank is cut by a backslash; and `specs/Wrapped.antt`, which does both. The public call is
//! `in_lines`: it promises that no line has more than 509 letters, and that C reads the same, by
//! `specs/Reading.antt`.
#![tactic(auto)]

mod breaking;
mod cutting;
mod wrapping;

pub use wrapping::in_lines;
