//! The C of a chart runs as the chart's rules say.
//!
//! Read `specs/Starts.antt` of `c_functions` for the file, its start, its reaction and its runs,
//! and `specs/Claims.antt` for what is claimed of it.
#![tactic(auto)]

mod laws;

pub use laws::{files_of_code_that_serves_run_as_charts, files_run_as_charts};
