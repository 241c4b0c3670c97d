//! Reads a chart text: its tree with places, or the first fault.
//!
//! The public call is `read_chart`. Read `specs/Text.antt` first: which texts are chart texts, and
//! how another text is refused. The grammar is that of the crate `chart_grammar`.
#![tactic(auto)]

mod content;
mod counts;
mod declarations;
mod expressions;
mod group;
mod items;
mod laws;
mod lists;
mod numbers;
mod operands;
mod reader;
mod statements;
mod states;
mod text;
mod transitions;
mod types;
mod words;

pub use laws::{
    a_refused_text_spells_no_chart, a_text_has_one_refusal, a_text_is_a_chart_or_is_refused,
    a_text_spells_one_chart,
};
pub use text::read_chart;
