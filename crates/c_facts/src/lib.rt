//! What is known of the fields of states in the struct of the C: what tests, stores and calls make
//! of it.
//!
//! Read `specs/Known.antt` for what is known and when it holds, `specs/Facts.antt` and
//! `specs/Asking.antt` for what is done with it, and `specs/Claims.antt` for what then holds.
#![tactic(auto)]

mod constants;
mod facts;
mod framing;
mod known;
mod laws;
mod numbers;
mod places;
mod questions;
mod rows;
mod sets;
mod settling;
mod stores;

pub use constants::constant_of;
pub use facts::{copied, covers, forgotten, framed, is_never, joined};
pub use known::{
    Change, Constant, Home, Known, News, Numbers, Place, Places, Question, Row, Rows, Sets, Written,
};
pub use laws::{
    framed_facts_hold, joined_facts_hold, stored_facts_hold, tested_facts_hold,
    tests_of_a_small_chart_are_decided,
};
pub use numbers::agrees;
pub use places::{all_covered, field_of, is_covered, is_touched, same_width};
pub use questions::{equality, tested};
pub use stores::{may_store, stored};
