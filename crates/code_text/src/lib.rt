//! The text of code, in two formats: printed and read exactly.
//!
//! Read `specs/Spelling.antt` first, the one spelling of code in each format, and then
//! `specs/Reading.antt`, which line can stand where and which fault is the first. What one line
//! says is in the crates below, `code_lines` and `code_fields`.
#![tactic(auto)]

mod counts;
mod expected;
mod fault;
mod laws;
mod limits;
mod partial;
mod printer;
mod reader;
mod refusal;

pub use fault::{CodeTextFault, FAULT_ROOM};
pub use laws::{
    a_text_is_of_code_or_has_a_fault, a_text_is_read, formats_differ_in_the_first_line,
    no_text_begins_another, one_text_one_code, well_formed_code_is_spellable,
    what_is_read_is_spelled_so,
};
pub use limits::TEXT_LIMIT;
pub use printer::print_code;
pub use reader::read_code;
