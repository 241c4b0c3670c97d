//! What a counter has counted: the number of times that the chart was processed with its event
//! since its state was last entered.
//!
//! A world has no past. So the rules with counters stand here once more, over work with a log of
//! what was entered, processed and assigned; the log changes nothing of a run. Read
//! `specs/Log.antt`, the log, and what is read off it; `specs/Work.antt`, `specs/Rules.antt` and
//! `specs/Reactions.antt`, the rules of `counting_rules` with the log; `specs/Tells.antt`, runs
//! with a log beside runs without; `specs/Times.antt`, what a counter has counted;
//! `specs/Assigned.antt`, to which data a chart assigns; `specs/Runs.antt`, runs with a log. The
//! public calls are the laws.
#![tactic(auto)]

mod laws;

pub use laws::{a_counter_is_a_number_of_times, counters_without_assignments_are_exact};
