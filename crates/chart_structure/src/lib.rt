//! The structure of a chart: the first fault of its compositions, default lists, history and
//! destinations, and the number of pairs of a list and a transition.
//!
//! Read `specs/Net.antt` and `specs/Structure.antt` first: what a net is, and when it is at fault.
//! `specs/Valid.antt` says what a chart without faults has. Which junctions a list reaches is
//! defined in `specs/Reached.antt` of `checked_chart`, for charts and for nets alike.
#![tactic(auto)]

mod dests;
mod kept;
mod laws;
mod lists;
mod net;
mod pass;
mod reach;
mod states;

pub use laws::{
    a_chart_has_one_number_of_pairs, a_net_has_a_first_fault_or_none,
    charts_of_valid_nets_have_structure, charts_with_structure_have_valid_nets,
    faultless_nets_are_valid, valid_nets_are_faultless, valid_nets_need_no_places,
};
pub use net::{Arrow, JunctionNode, Net, Node};
pub use pass::{Structure, first_fault};
