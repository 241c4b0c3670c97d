//! Cuts a statechart text into tokens with their places.
//!
//! `lex` is the one call that readers need, and `word_of` says which further word a token is. Read
//! `specs/Lex.antt` first: `cut_of` is what a text is cut into, and `front_of` what stands at the
//! front of a text. What isn't said here is as in a chart text.
#![tactic(auto)]

mod bytes;
mod comments;
mod front;
mod laws;
mod lexer;
mod numbers;
mod symbols;
mod words;

pub use laws::what_is_cut_as_a_name_is_one;
pub use lexer::lex;
pub use words::{Word, word_of};
