//! What values a datum has, and its first one.
use crate::name::LitText;
use fixed_point::{Mode, Scale};
use token_grammar::Span;

/// The sort of a datum: which values it may have.
#[derive(Clone, Copy)]
pub enum SortText {
    /// True or false.
    Flag,
    /// The numbers of a scale, and what is done with one out of its range.
    Number(Scale, Mode),
}

/// The first value of a datum. A missing one is 0 or false, with the place of the datum's name.
#[derive(Clone, Copy)]
pub enum InitText {
    /// A number. One of value 0 isn't negative, and has no digits after the point and no `q`.
    Number {
        /// Whether a minus sign stands before it.
        negative: bool,
        /// The number after the sign.
        lit: LitText,
        /// The place of its first token.
        at: Span,
    },
    /// A flag.
    Flag {
        /// True or false.
        value: bool,
        /// Where it stands.
        at: Span,
    },
}
