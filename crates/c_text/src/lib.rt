//! How the C of a chart is spelled: names, types, expressions, statements and functions, printed.
//!
//! Read `specs/Labels.antt`, `specs/Types.antt`, `specs/Expressions.antt`, `specs/Statements.antt`
//! and `specs/Functions.antt`: what each thing is called, and how it is written.
//! docs/C_SUBSET.md says the same in words. The public calls are `print_prototype` and
//! `print_function`, and for a header `print_field_label`, `print_field_type`, `print_test`, `is_or`.
//! The laws say that names are pairwise different and no keywords (`specs/Distinct.antt`), and that
//! fields are those of the file of code.
#![tactic(auto)]

mod constants;
mod expressions;
mod fields;
mod functions;
mod kinds;
mod labels;
mod laws;
mod locals;
mod numbers;
mod reading;
mod statements;
mod types;

pub use expressions::print_test;
pub use fields::{print_field_label, print_field_type};
pub use functions::{print_function, print_prototype};
pub use kinds::{Kind, function_kind};
pub use labels::Labels;
pub use laws::{
    fields_are_those_of_the_struct, names_are_distinct, no_local_hides_a_function,
    no_name_is_a_keyword,
};
