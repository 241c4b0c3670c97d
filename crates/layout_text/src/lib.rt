//! What text the code of a chart has, and how long it is.
//!
//! The public calls are laws. Those of `line_lengths` are of any code: how many bytes each line has
//! at most, and so each procedure and the whole text, by what there is of each kind
//! (`specs/Sizes.antt`). Nothing is said there of charts, nor of how much code there is. Those of
//! `chart_texts` are of the code of a valid chart: it has a text, which is short enough to be read
//! again, and is read as that code. How many procedures of each kind there are stands in
//! `chart_code`, and the sums over a chart are made here.
#![tactic(auto)]

mod chart_texts;
mod line_lengths;

pub use chart_texts::{the_text_of_a_charts_code_is_read, the_text_of_a_charts_code_is_short};
pub use line_lengths::{lines_are_short, texts_are_short};
