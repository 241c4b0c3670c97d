//! A function of the C goes without its parameters where no statement needs what is handed over:
//! the pass, its search, and what holds of it.
//!
//! Read `specs/Needs.antt` for which locals statements need, and `specs/Bare.antt` for the pass.
#![tactic(auto)]

mod functions;
mod laws;
mod needs;
mod search;

pub use functions::{bare_function, is_needless};
pub use laws::bare_functions_run_as_before;
pub use needs::{is_it, is_same};
pub use search::bare_functions;
