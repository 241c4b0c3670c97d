//! A function of the C without sets of locals that nothing reads: the pass, and what holds of it.
//!
//! Read `specs/Live.antt` for which locals may be read from a place on, and `specs/Unread.antt` for
//! the pass.
#![tactic(auto)]

mod functions;
mod laws;
mod live;
mod local_name;
mod trimming;

pub use functions::trimmed_function;
pub use laws::unread_sets_go;
pub use local_name::LocalName;
