//! The statements of a function of the C as a tree: its lines are read to one, and written back.
//! Passes from C to C work on such trees.
//!
//! Read `specs/Blocks.antt` for the statements that a tree is, `specs/Reading.antt` for how lines are
//! read, and `specs/Sizes.antt` for which functions passes go through.
#![tactic(auto)]

mod reading;
mod sizes;
mod trees;
mod writing;

pub use reading::{boxed, step, tree_of};
pub use sizes::is_short;
pub use trees::Tree;
pub use writing::{is_end, lines_of_tree, put, put_else, write, write_after, write_second};
