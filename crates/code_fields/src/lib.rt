//! The words of code texts: numbers, names, data, events and expressions, printed and read exactly.
//!
//! Read `specs/Spelling.antt` first, the one spelling of each, then `specs/Fields.antt` and
//! `specs/Expressions.antt`, what a text says. The laws say that both agree. `specs/Lines.antt` cuts a
//! text into its lines.
#![tactic(auto)]

mod cuts;
mod declarations;
mod expressions;
mod kinds;
mod laws;
mod lines;
mod numbers;
mod operators;
mod printer;
mod scales;

pub use cuts::{Field, Parts, cut_at, field_of};
pub use declarations::{event_of, name_of, var_of};
pub use expressions::expr_of;
pub use kinds::comp_of;
pub use laws::{data_have_one_line, events_have_one_line, expressions_have_one_text};
pub use lines::{next_line, push_line};
pub use numbers::{behind, number_behind, number_of};
pub use printer::{
    comp_word, print_event, print_expr, print_name, print_number, print_signed, print_sort,
    print_var, var_kind_word,
};
