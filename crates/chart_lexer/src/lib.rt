//! Cuts a chart text into tokens with their places.
//!
//! `lex` is the one call that readers need; `is_name` decides whether a text is one name,
//! `is_spelled` whether it is a given word, and `name_text` copies a name. Read `specs/Lex.antt` first: `cut_of` is what a text is cut into, and
//! `front_of` what stands at the front of a text.
#![tactic(auto)]

mod bytes;
mod front;
mod laws;
mod lexer;
mod numbers;
mod symbols;
mod words;

pub use front::Stop;
pub use laws::{a_name_is_cut_as_one, what_is_cut_as_a_name_is_one};
pub use lexer::{Lexed, lex};
pub use words::{NAME_LIMIT, is_name, is_spelled, name_text};
