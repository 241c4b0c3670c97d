//! The C of a chart: its header and its source.
//!
//! Read `specs/Files.antt`, what the two texts are; `specs/Source.antt`, what a source consists of;
//! `specs/Reached.antt`, which functions are written; `specs/Order.antt`, in which order;
//! `specs/Changing.antt`, which of them may change the struct; `specs/Heights.antt`, how many
//! functions are open at once; `specs/Facts.antt`, what the header says of them; and
//! `specs/Comments.antt`, what is said of each procedure. The public call is `files`.
#![tactic(auto)]

mod calls;
mod changing;
mod comments;
mod facts;
mod file;
mod heights;
mod known;
mod laws;
mod made;
mod order;
mod printing;
mod said;
mod uses;
mod visits;
mod written;

pub use file::{CFiles, files};
pub use laws::{
    each_call_stands_behind_a_declaration, functions_that_only_read_leave_the_struct,
    the_smaller_code_of_a_chart_is_one, the_source_for_code_is_one,
    the_struct_of_the_header_is_that_of_the_source, words_for_copies_can_stand_in_a_comment,
};
