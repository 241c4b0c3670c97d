//! The subset of C that is written for charts: its trees, and what they mean by C99.
//!
//! Read `specs/Trees.antt`, `specs/Meaning.antt` and `specs/Running.antt`: which C there is, what
//! its expressions mean, and what its statements and functions do. docs/C_SUBSET.md says the same
//! in words.
#![tactic(auto)]

mod building;
mod laws;
mod trees;

pub use laws::{
    more_fuel_changes_nothing, nothing_is_read_before_it_is_stored, the_helper_gives_the_floor,
    what_is_undefined_is_wrong,
};
pub use trees::{
    Arithmetic, Bitwise, CExpr, CType, Case, Comparison, Division, Function, Line, Width,
};
