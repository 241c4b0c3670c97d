//! Compiles a chart to code.
//!
//! The code of a chart is `code_of_chart` of `chart_code`: its states and its names, and the
//! procedures of its layout. Read `specs/Compiled.antt`, what that code keeps.
#![tactic(auto)]

mod compiler;
mod laws;
mod tables;

pub use compiler::compile;
pub use laws::the_code_of_a_chart_is_well_formed;
