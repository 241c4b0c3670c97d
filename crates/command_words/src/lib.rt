//! What the words of the command line ask for, read with `clap`.
//!
//! The public call is `command_from`. Its clause says for every list of words which command it asks
//! for, or that it is refused: read `specs/Words.antt`, and then `specs/Reading.antt` and
//! `specs/Options.antt`, which don't speak of `clap`. `specs/Parser.antt` and `specs/Asked.antt`
//! are the parser as `clap` sees it and what its answers stand for.
//!
//! The other calls are pieces of a parser that another program of the project shares.
#![tactic(auto)]

mod arguments;
mod parser;
mod words;

pub use arguments::{bounds_in, number_in, text_in};
pub use parser::{bare, bound, with_command, with_file};
pub use words::{Command, NET_STEP_LIMIT, command_from};
