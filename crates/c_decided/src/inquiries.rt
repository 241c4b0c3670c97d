//! Which tests ask for the number of a local.
ghost use Rattle.std.specs.Prelude.{◌≡◌};
ghost use Rattle.c_subset.specs.Lines.{expr_of};
ghost use Rattle.c_subset.specs.Running as running;
ghost use Rattle.c_decided.specs.Numbered as spec;

use c_facts::{Constant, constant_of, equality, same_width};
use c_subset::{CExpr, CType, Width};

/// The question whether a local is a number, or whether it isn't.
#[derive(Clone, Copy)]
pub struct Inquiry {
    /// The type of the local.
    pub of: CType,
    /// Its number.
    pub local: u32,
    /// Whether it is to be that number.
    pub is: bool,
    /// The number.
    pub number: u32,
}

/// A local of the unsigned type of a width.
#[derive(Clone, Copy)]
pub struct Word {
    /// The width.
    pub width: Width,
    /// Its number.
    pub local: u32,
}

/// Whether both types are the same.
pub fn same_type(first: CType, second: CType) -> bool
    ensures { result ≡ running.same_type first second }
{
    match first {
        CType::Signed(width) => match second {
            CType::Signed(other) => same_width(width, other),
            CType::Unsigned(_) | CType::Truth => false,
        },
        CType::Unsigned(width) => match second {
            CType::Unsigned(other) => same_width(width, other),
            CType::Signed(_) | CType::Truth => false,
        },
        CType::Truth => match second {
            CType::Truth => true,
            CType::Signed(_) | CType::Unsigned(_) => false,
        },
    }
}

/// The local of that type and number, if the type is an unsigned one.
fn word_in(of: CType, local: u32) -> Option<Word>
    ensures { result ≡ spec.word_in of local }
{
    match of {
        CType::Unsigned(width) => Some(Word { width, local }),
        CType::Signed(_) | CType::Truth => None,
    }
}

/// The local of an unsigned type that an expression is.
fn word_of(expr: &CExpr) -> Option<Word>
    ensures { result ≡ spec.word_of (expr_of expr.now) }
{
    match expr {
        CExpr::Local(of, local) => word_in(*of, *local),
        CExpr::Const(..)
        | CExpr::Field(..)
        | CExpr::Element(..)
        | CExpr::Cast(..)
        | CExpr::Minus(..)
        | CExpr::Bang(..)
        | CExpr::Calc(..)
        | CExpr::Divide(..)
        | CExpr::Bits(..)
        | CExpr::Compare(..)
        | CExpr::Both(..)
        | CExpr::Either(..)
        | CExpr::Choose(..) => None,
    }
}

/// The question whether a local is a constant, if that is one.
fn with_constant(is: bool, word: Word, number: Option<Constant>) -> Option<Inquiry>
    ensures { result ≡ spec.with_constant is word number }
{
    match number {
        None => None,
        Some(constant) => {
            if same_width(constant.width, word.width) {
                Some(Inquiry {
                    of: CType::Unsigned(word.width),
                    local: word.local,
                    is,
                    number: constant.number,
                })
            } else {
                None
            }
        }
    }
}

/// What a comparison of that kind asks of a local.
fn compares(kind: Option<bool>, word: Option<Word>, expr: &CExpr) -> Option<Inquiry>
    ensures { result ≡ spec.compares kind word (expr_of expr.now) }
{
    match kind {
        None => None,
        Some(is) => match word {
            None => None,
            Some(own) => with_constant(is, own, constant_of(expr)),
        },
    }
}

/// The question the other way round.
fn opposite(found: Option<Inquiry>) -> Option<Inquiry>
    ensures { result ≡ spec.opposite found }
{
    match found {
        None => None,
        Some(inquiry) => Some(Inquiry {
            of: inquiry.of,
            local: inquiry.local,
            is: !inquiry.is,
            number: inquiry.number,
        }),
    }
}

/// What an expression asks of a local.
#[tactic(auto, unfolding(crate::specs::Numbered::asks))]
pub fn asks(expr: &CExpr) -> Option<Inquiry>
    ensures { result ≡ spec.asks (expr_of expr.now) }
{
    match expr {
        CExpr::Local(of, local) => Some(Inquiry {
            of: *of,
            local: *local,
            is: false,
            number: 0,
        }),
        CExpr::Bang(inner) => opposite(asks(inner)),
        CExpr::Compare(op, left, right) => compares(equality(*op), word_of(left), right),
        CExpr::Const(..)
        | CExpr::Field(..)
        | CExpr::Element(..)
        | CExpr::Cast(..)
        | CExpr::Minus(..)
        | CExpr::Calc(..)
        | CExpr::Divide(..)
        | CExpr::Bits(..)
        | CExpr::Both(..)
        | CExpr::Either(..)
        | CExpr::Choose(..) => None,
    }
}
