//! The code of a valid chart is sound, and how many procedures, what heights and how much work it
//! has at most.
//!
//! No code is compiled here, and the public calls are laws of the code that `chart_code` defines:
//! what `chart_compile` says of the code that it makes follows from them.
//!
//! - `procedure_costs`: each kind of procedure taken alone, by what is known of the procedures that
//!   it calls. Read `specs/Calls.antt`, what each kind calls; then `specs/Sound.antt`, that it is
//!   sound; `specs/Lengths.antt`, how many instructions it has; `specs/Heights.antt`, how high it
//!   is; and `specs/Works.antt`, how much work. Nothing is said there of how numbers are chosen, and
//!   nothing is summed over a chart.
//! - `tree_sums`: the sum of a function over the states at or below a state
//!   (`specs/TreeSums.antt`): how it splits over the children of the state, how much such sums are
//!   for all states together, and how many children and states below others a tree has.
//! - `code_soundness`: each procedure of the code stands at its number, and what it calls has a
//!   lower one: so no procedure has a fault of numbers, skips, calls, types, returns or memory. The
//!   tables are those of the chart, and a chart within its limits has few enough procedures and
//!   instructions. `specs/FilledBlocks.antt` has the one count that is new.
//! - `code_heights`: what no procedure of each kind is higher than, by how many levels may lie below
//!   its state (`specs/HeightBounds.antt`). Each procedure keeps that bound, and so none is over the
//!   limit of heights.
//! - `code_works`: how much work a procedure is at most, by what it is of
//!   (`specs/WorkBounds.antt`). Leaving a state, entering it and processing it are counted with a
//!   share of each state at or below it. Each procedure keeps to the work of its kind, and no
//!   procedure has more work than 400 times one more than the number of states times one more than
//!   the number of items.
//!
//! The last three join the first two, and none of them uses another.
#![tactic(auto)]

mod code_heights;
mod code_soundness;
mod code_works;
mod procedure_costs;
mod tree_sums;

pub use code_heights::the_code_of_a_chart_is_low;
pub use code_soundness::{the_code_of_a_chart_has_few_procedures, the_code_of_a_chart_is_sound};
pub use code_works::{
    each_procedure_has_the_work_of_its_kind, the_code_of_a_chart_has_little_work,
};
pub use procedure_costs::{
    heights_of_procedures, lengths_of_procedures, procedures_are_sound, works_of_procedures,
};
pub use tree_sums::{children_and_states_below, the_sum_below_a_state, the_sum_of_all_sums_below};
