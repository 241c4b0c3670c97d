//! The header of a chart's C, printed: the numbers of events and faults, bounds and sizes, the
//! struct with a comment on each field, the two calls, and a test of each state.
//!
//! Read `specs/Header.antt`, and what it uses: `specs/Fields.antt`, the fields of the struct, and
//! `specs/Paths.antt`, the names of states; and `specs/Identity.antt`, what both files say of their
//! making. Laws say more of that text: `specs/Struct.antt`, that
//! it declares the struct of the file, and `specs/Scope.antt`, that no two names at file scope are
//! the same. The public calls are `print_header`, `print_identity`, `print_sum_numbers`,
//! `print_named`, `version` and `calls_number`.
#![tactic(auto)]

mod facts;
mod fields;
mod header;
mod identity;
mod laws;
mod numbers;
mod paths;
mod states;
mod words;

pub use facts::{SourceFacts, calls_number};
pub use header::print_header;
pub use identity::{Identity, print_identity, print_sum_numbers, version};
pub use laws::{
    names_of_the_header_are_distinct, names_of_two_charts_are_different,
    no_name_of_the_header_is_a_keyword, no_name_of_the_header_is_reserved,
    no_name_of_the_struct_is_reserved, the_header_declares_the_struct,
    the_name_that_is_replaced_is_no_other, the_name_that_is_told_is_no_other,
};
pub use words::print_named;
