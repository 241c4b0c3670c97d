//! Counters in the tree of a chart text, and that what is checked is then the chart with its
//! counters written out.
//!
//! The tree has for each counter a datum, and for all of them a junction at which nothing is found;
//! entering a state sets its counters to 0, and the inner list of the chart begins with the
//! transitions that count. Read `specs/Counters.antt`, how counters are declared, set to 0, counted
//! and tested; `specs/Counting.antt`, where this stands in the tree; `specs/Numbers.antt`, the
//! counters by number; `specs/Written.antt`, how the charts with and without counting belong
//! together; `specs/Assigns.antt`, to which names a text assigns. The public calls are the laws.
#![tactic(auto)]

mod laws;

pub use laws::{
    after_is_a_test, counters_belong_to_states, counters_of_a_text_are_exact,
    counting_trees_are_written_out, counting_trees_count,
};
