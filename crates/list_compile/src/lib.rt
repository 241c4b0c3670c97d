//! Compiles the lists of transitions of a chart and their parts.
//!
//! Read `specs/Drafts.antt`, what a draft and the code of a procedure are as contracts see them,
//! and `specs/NumberTables.antt`, what a numbering keeps, which its type carries. Each call says
//! what it appends, in the words of `chart_code`. `reached::reached` gives the junctions of a list
//! in the order of their procedures.
#![tactic(auto)]

mod blocks;
mod counts;
mod draft;
pub mod number_limits;
pub mod number_offsets;
mod numbering;
mod offsets;
mod parts;
pub mod reached;
pub mod results;
mod searches;
mod sizes;
mod tables;

pub use blocks::{Lasting, append_block, append_parts};
pub use draft::{
    Draft, append, put, put_call, put_refuse, put_require, put_return, put_unless_found,
};
pub use numbering::Numbering;
pub use searches::append_list;
pub use sizes::below_count;
