//! What expressions are: constants, parameters, and tests of the last result.
ghost use Rattle.std.specs.Prelude.{◌≡◌};
ghost use Rattle.c_subset.specs.Lines.{expr_of, exprs_of};
ghost use Rattle.c_subset.specs.Running.{same_type};
ghost use Rattle.c_functions.specs.Plans.{word};
ghost use Rattle.c_loops.specs.Loops.{are_locals, hands_on};
ghost use Rattle.c_loops.specs.Results as spec;

use crate::known::{Test, opposite};
use c_subset::{CExpr, CType, Comparison, Width};

/// Whether a type is `uint32_t`.
pub fn is_word(of: CType) -> bool
    ensures { result ≡ same_type of word }
{
    match of {
        CType::Unsigned(Width::W32) => true,
        CType::Unsigned(Width::W8 | Width::W16 | Width::W64 | Width::W128)
        | CType::Signed(_)
        | CType::Truth => false,
    }
}

/// A number as a word, where it is one.
fn small(value: i128) -> Option<u32>
    ensures { result ≡ spec.small value }
{
    if 0 <= value && value <= 4_294_967_295 {
        Some(value as u32)
    } else {
        None
    }
}

/// The number that is a constant word.
pub fn constant_of(expr: &CExpr) -> Option<u32>
    ensures { result ≡ spec.constant_of (expr_of expr.now) }
{
    match expr {
        CExpr::Const(of, value) => { if is_word(*of) { small(*value) } else { None } }
        CExpr::Field(..)
        | CExpr::Element(..)
        | CExpr::Local(..)
        | CExpr::Cast(..)
        | CExpr::Minus(..)
        | CExpr::Bang(..)
        | CExpr::Calc(..)
        | CExpr::Divide(..)
        | CExpr::Bits(..)
        | CExpr::Compare(..)
        | CExpr::Both(..)
        | CExpr::Either(..)
        | CExpr::Choose(..) => None,
    }
}

/// Whether an expression is the word that is the local with this number.
pub fn is_local(number: u32, expr: &CExpr) -> bool
    ensures { result ≡ spec.is_local number (expr_of expr.now) }
{
    match expr {
        CExpr::Local(of, own) => is_word(*of) && *own == number,
        CExpr::Const(..)
        | CExpr::Field(..)
        | CExpr::Element(..)
        | CExpr::Cast(..)
        | CExpr::Minus(..)
        | CExpr::Bang(..)
        | CExpr::Calc(..)
        | CExpr::Divide(..)
        | CExpr::Bits(..)
        | CExpr::Compare(..)
        | CExpr::Both(..)
        | CExpr::Either(..)
        | CExpr::Choose(..) => false,
    }
}

/// The test of the last result against a constant.
fn comparing(constant: Option<u32>, op: Comparison) -> Test
    ensures { result ≡ spec.comparing constant op }
{
    match constant {
        None => Test::Other,
        Some(number) => match op {
            Comparison::IsEqual => Test::Equal(number),
            Comparison::IsUnequal => Test::Unequal(number),
            Comparison::IsBelow
            | Comparison::IsAtMost
            | Comparison::IsAbove
            | Comparison::IsAtLeast => Test::Other,
        },
    }
}

/// What an expression tests of the last result.
pub fn test_of(expr: &CExpr) -> Test
    ensures { result ≡ spec.test_of (expr_of expr.now) }
{
    match expr {
        CExpr::Bang(inner) => opposite(test_of(inner)),
        CExpr::Compare(op, left, right) => {
            if is_local(4, left) {
                comparing(constant_of(right), *op)
            } else {
                Test::Other
            }
        }
        CExpr::Const(..)
        | CExpr::Field(..)
        | CExpr::Element(..)
        | CExpr::Local(..)
        | CExpr::Cast(..)
        | CExpr::Minus(..)
        | CExpr::Calc(..)
        | CExpr::Divide(..)
        | CExpr::Bits(..)
        | CExpr::Both(..)
        | CExpr::Either(..)
        | CExpr::Choose(..) => Test::Other,
    }
}

/// Whether these are the parameters of a procedure, in order.
fn are_parameters(args: &[CExpr]) -> bool
    ensures { result ≡ are_locals 0 (exprs_of args.now) }
{
    match args {
        [event, depth, base, home, last] => {
            is_local(0, event)
                && is_local(1, depth)
                && is_local(2, base)
                && is_local(3, home)
                && is_local(4, last)
        }
        _ => false,
    }
}

/// Whether a call of `function` hands on: it is one of the function with this number by itself,
/// with its parameters as they are, and keeps the result as the last one.
pub fn hands_on(number: u32, of: CType, local: u32, function: u32, args: &[CExpr]) -> bool
    ensures { result ≡ hands_on number of local function (exprs_of args.now) }
{
    is_word(of) && local == 4 && function == number && are_parameters(args)
}
