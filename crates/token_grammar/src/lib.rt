//! Grammars over the tokens of a chart text: which tokens spell a value, and a reader's cursor.
//!
//! `specs/Grammar.antt` has the words in which a grammar is written down, and says what nullable,
//! FIRST and FOLLOW are. The laws in `proofs/` say of every grammar so written that it is LL(1):
//! with one token of look-ahead it is read as it spells, and reading stops at the first token that
//! doesn't continue. A limit is part of its grammar: what is one too many isn't spelled.
//! `proofs/Lifted.antt` compares a grammar with one in which some limits are lifted, which shows
//! which limit a token breaks.
#![tactic(auto)]

mod cursor;
mod fault;
mod token;

pub use cursor::Cursor;
pub use fault::{ReadError, Thing, TokenFault};
pub use token::{Kind, Span, Token};
