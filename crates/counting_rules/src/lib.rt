//! The rules of a run with counters of events, and what counters are as actions and transitions.
//!
//! A counter belongs to a state and an event. Entering the state sets it to 0, before its entry
//! action; each time that the chart is processed with the event as the current one, by an event
//! from outside or by a broadcast, it becomes one more, after the during action of the chart and
//! before its inner list. For all counters of an event together this costs one step.
//!
//! Read `specs/Counters.antt`, counters and what is done with them; `specs/Rules.antt`, the two
//! rules in which they have a part; `specs/Reactions.antt`, starts, reactions and runs;
//! `specs/Written.antt`, how counters are written out as actions and transitions of a chart;
//! `specs/Numbers.antt`, counters as numbers. The public calls are the laws.
//!
//! Source: the temporal logic operators of the Stateflow User's Guide, which count an event from
//! the activation of a state on. What is counted where events are sent, namely how often the chart
//! is processed and not how often the state is, and what counting costs, is this project's choice.
#![tactic(auto)]

mod laws;

pub use laws::{counters_are_numbers, no_counters_change_nothing, written_counters_count};
