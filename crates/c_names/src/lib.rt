//! How a chart's name stands in names of C, printed, and which names C99 keeps for its library.
//!
//! Read `specs/Stems.antt`: each `_` of the name is doubled, `_` and a word stand after it, and `flow__`
//! stands before it where a name of the library could arise. `specs/Reserved.antt` lists the names of
//! the library. The public calls are `print_doubled`, `print_chart_name` and `print_guard_name`. What the
//! names promise are laws of `c_header`.
#![tactic(auto)]

mod reserved;
mod stems;

pub use stems::{print_chart_name, print_doubled, print_guard_name};
