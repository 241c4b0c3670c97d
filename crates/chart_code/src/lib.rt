//! The code of a chart: which instructions each procedure has, where each stands, and that this
//! code runs as the rules.
//!
//! A chart has procedures for its states and for its lists.
//!
//! - `procedure_laws`: what the procedures do, whatever their numbers are. Read
//!   `specs/Numbers.antt`, which procedures there are; `specs/StateProcedures.antt` and
//!   `specs/ListProcedures.antt`, the instructions of each; `specs/Kinds.antt`, what each kind
//!   does; and `specs/Compiled.antt`, code in which the procedures of a chart stand at their
//!   numbers: in such code each procedure does its piece of work of the rules, and so the code has
//!   the runs of the chart. What is said of lists is said for any continuation in
//!   `specs/SearchParts.antt` and `specs/SearchFrames.antt`. Nothing is said there of how the
//!   numbers are chosen.
//! - `layout_laws`: where each procedure stands. Read `specs/Keys.antt`, all procedures of a chart
//!   in the order of their numbers; `specs/Places.antt`, the number of each, which is arithmetic on
//!   how many there are of each kind and looks into no instructions; `specs/Bodies.antt`, the
//!   instructions of each, and the code of the chart; below them `specs/Ends.antt`, which states
//!   are below a state, and `specs/ReachedJunctions.antt`, which junctions are reached from a list.
//!   Each procedure stands at its number, and so the code of a chart runs as the chart; its results
//!   are few.
//!
//! The public calls are laws. Nothing is said here of what the code costs.
#![tactic(auto)]

mod layout_laws;
mod procedure_laws;

pub use layout_laws::{
    each_procedure_stands_at_its_number, reached_junctions_are_listed,
    states_below_a_state_follow_it, the_code_of_a_chart_runs_as_the_rules, the_count_of_procedures,
    the_results_of_code_are_few,
};
pub use procedure_laws::{
    a_list_is_searched_for_any_continuation, code_runs_as_the_rules,
    procedures_do_the_work_of_the_rules,
};
