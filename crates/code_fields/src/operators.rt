//! Operators in front of their operands, and operands without operators.
ghost use Rattle.std.specs.Prelude.{◌≡◌, option_map};
ghost use Rattle.actions.specs.Trees.{expr_of};
ghost use Rattle.code_fields.specs.Expressions as spec;

use crate::cuts::cut_at;
use crate::numbers::{behind, number_behind, number_of, numeral};
use actions::{Expr, Op};
use fixed_point::{Num, PLACES_LIMIT, READ_LIMIT};

/// An operator with one or two operands.
#[derive(Clone, Copy)]
pub enum Operator {
    /// `-` of one number.
    Neg,
    /// `!`
    Not,
    /// An operator with two operands.
    Bin(Op),
}

/// The operator of a token, if it is one.
#[tactic(auto, unfolding(crate::specs::Expressions::operator_of))]
pub fn operator_of(token: &[u8]) -> Option<Operator>
    ensures { result ≡ spec.operator_of token.now }
{
    if token == b"~".as_slice() {
        Some(Operator::Neg)
    } else if token == b"!".as_slice() {
        Some(Operator::Not)
    } else if token == b"||".as_slice() {
        Some(Operator::Bin(Op::Or))
    } else if token == b"&&".as_slice() {
        Some(Operator::Bin(Op::And))
    } else {
        comparison_of(token)
    }
}

/// The operator of a token that compares or calculates, if it is one.
fn comparison_of(token: &[u8]) -> Option<Operator>
    ensures { result ≡ spec.comparison_of token.now }
{
    if token == b"==".as_slice() {
        Some(Operator::Bin(Op::Eq))
    } else if token == b"!=".as_slice() {
        Some(Operator::Bin(Op::Ne))
    } else if token == b"<".as_slice() {
        Some(Operator::Bin(Op::Lt))
    } else if token == b"<=".as_slice() {
        Some(Operator::Bin(Op::Le))
    } else if token == b">".as_slice() {
        Some(Operator::Bin(Op::Gt))
    } else if token == b">=".as_slice() {
        Some(Operator::Bin(Op::Ge))
    } else {
        calculation_of(token)
    }
}

/// The operator of a token that calculates, if it is one.
fn calculation_of(token: &[u8]) -> Option<Operator>
    ensures { result ≡ spec.calculation_of token.now }
{
    if token == b"+".as_slice() {
        Some(Operator::Bin(Op::Add))
    } else if token == b"-".as_slice() {
        Some(Operator::Bin(Op::Sub))
    } else if token == b"*".as_slice() {
        Some(Operator::Bin(Op::Mul))
    } else if token == b"/".as_slice() {
        Some(Operator::Bin(Op::Div))
    } else {
        None
    }
}

/// The expression of one token without an operator.
#[tactic(auto, unfolding(crate::specs::Expressions::atom_of))]
pub fn atom_of(token: &[u8]) -> Option<Expr>
    ensures { option_map expr_of result ≡ spec.atom_of token.now }
{
    if token == b"T".as_slice() {
        return Some(Expr::Flag(true));
    }
    if token == b"F".as_slice() {
        return Some(Expr::Flag(false));
    }
    if let Some(datum) = number_behind(b"d", token) {
        return Some(Expr::Read(datum));
    }
    if let Some(state) = number_behind(b"in", token) {
        return Some(Expr::Active(state));
    }
    let literal = literal_of(behind(b"#", token)?)?;
    Some(Expr::Lit(literal))
}

/// A literal without its sign `#`: a mantissa below `READ_LIMIT`, and a fraction of at most 32.
#[tactic(auto, unfolding(crate::specs::Expressions::literal_of))]
fn literal_of(text: &[u8]) -> Option<Num>
    ensures { result ≡ spec.literal_of text.now }
{
    let parts = cut_at(text, b':')?;
    let mantissa = numeral(parts.front, READ_LIMIT)?;
    let frac = frac_of(parts.rest)?;
    Some(Num {
        mantissa: mantissa as i128,
        frac,
    })
}

/// A fraction of at most `PLACES_LIMIT`.
fn frac_of(token: &[u8]) -> Option<u32>
    ensures { result ≡ spec.frac_of token.now }
{
    let frac = number_of(token)?;
    if frac <= u32::from(PLACES_LIMIT) {
        Some(frac)
    } else {
        None
    }
}
