//! What every spelled chart has, apart from places and from how it was laid out: names that are
//! names, numbers that are read, and no more of anything than the limits allow. The canonical text
//! of a chart that has all this spells the chart.
//!
//! Read `specs/Words.antt` first, then `specs/Sizes.antt`, `specs/Terms.antt` and
//! `specs/Claims.antt`, the laws that the lemmas prove: of numbers, of expressions, of
//! transitions, of charts, and of the tokens into which a canonical text is cut.
#![tactic(auto)]
