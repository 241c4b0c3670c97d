//! Expressions as they are written.
use crate::name::{LitText, NameText, PathText};
use token_grammar::Span;

/// An operator with one operand.
#[derive(Clone, Copy, PartialEq, Eq)]
pub enum UnWord {
    /// `-`
    Neg,
    /// `!`
    Not,
}

/// An operator with two operands.
#[derive(Clone, Copy, PartialEq, Eq)]
pub enum BinWord {
    /// `||`
    Or,
    /// `&&`
    And,
    /// `==`
    Eq,
    /// `!=`
    Ne,
    /// `<`
    Lt,
    /// `<=`
    Le,
    /// `>`
    Gt,
    /// `>=`
    Ge,
    /// `+`
    Add,
    /// `-`
    Sub,
    /// `*`
    Mul,
    /// `/`
    Div,
}

/// An expression. Parentheses leave no trace. Its place is that of its first token; the place of a
/// binary expression is that of its operator.
#[derive(Drop)]
pub enum ExprText {
    /// A number.
    Lit(LitText, Span),
    /// `true` or `false`.
    Flag(bool, Span),
    /// The value of a datum.
    Name(NameText),
    /// `in(PATH)`: whether a state is active.
    Active(PathText, Span),
    /// An operator and its operand.
    Unary(UnWord, Box<ExprText>, Span),
    /// An operator with its left and its right operand.
    Binary(BinWord, Box<ExprText>, Box<ExprText>, Span),
}
