//! Copies of names, destinations and expressions of chart texts.
#![tactic(auto)]

mod copies;

pub use copies::{copy_dest, copy_expr, copy_name, copy_path};
