//! Constants, fields and masks that expressions are.
ghost use Rattle.std.specs.Prelude.{◌≡◌, ◌≤◌, pos};
ghost use Rattle.c_subset.specs.Lines.{expr_of};
ghost use Rattle.c_facts.specs.Asking as spec;

use crate::known::Constant;
use c_subset::{CExpr, CType, Width};

/// The numbers of a type that are told apart are below this one.
fn limit(width: Width) -> i128
    ensures { result ≡ pos (spec.limit width) }
{
    match width {
        Width::W8 => 256,
        Width::W16 => 65_536,
        Width::W32 | Width::W64 | Width::W128 => 4_294_967_296,
    }
}

/// The constant of the type, if it is a number of it.
fn small(width: Width, value: i128) -> Option<Constant>
    ensures { result ≡ spec.small width value }
{
    if 0 <= value && value < limit(width) && value <= 4_294_967_295 {
        Some(Constant {
            width,
            number: value as u32,
        })
    } else {
        None
    }
}

/// A constant of an unsigned type.
pub fn unsigned_of(of: CType, value: i128) -> Option<Constant>
    ensures { result ≡ spec.unsigned_of of value }
{
    match of {
        CType::Unsigned(width) => small(width, value),
        CType::Signed(_) | CType::Truth => None,
    }
}

/// The constant that an expression is.
pub fn constant_of(expr: &CExpr) -> Option<Constant>
    ensures { result ≡ spec.constant_of (expr_of expr.now) }
{
    match expr {
        CExpr::Const(of, value) => unsigned_of(*of, *value),
        CExpr::Field(..)
        | CExpr::Element(..)
        | CExpr::Local(..)
        | CExpr::Cast(..)
        | CExpr::Minus(..)
        | CExpr::Bang(..)
        | CExpr::Calc(..)
        | CExpr::Divide(..)
        | CExpr::Bits(..)
        | CExpr::Compare(..)
        | CExpr::Both(..)
        | CExpr::Either(..)
        | CExpr::Choose(..) => None,
    }
}

/// The field that an expression is.
pub fn field_in(expr: &CExpr) -> Option<u32>
    ensures { result ≡ spec.field_in (expr_of expr.now) }
{
    match expr {
        CExpr::Field(field) => Some(*field),
        CExpr::Const(..)
        | CExpr::Element(..)
        | CExpr::Local(..)
        | CExpr::Cast(..)
        | CExpr::Minus(..)
        | CExpr::Bang(..)
        | CExpr::Calc(..)
        | CExpr::Divide(..)
        | CExpr::Bits(..)
        | CExpr::Compare(..)
        | CExpr::Both(..)
        | CExpr::Either(..)
        | CExpr::Choose(..) => None,
    }
}

/// Which of so many bits alone is set in a mask, if it is one of them.
#[tactic(auto, using(crate::proofs::BitLemmas::single_none, crate::proofs::BitLemmas::single_more))]
pub fn single_bit(count: u32, mask: u32) -> Option<u32>
    requires { count ≤ 32 }
    ensures { result ≡ spec.single_bit count mask }
{
    if count == 0 {
        return None;
    }
    let bit = count - 1;
    if mask == 1 << bit {
        Some(bit)
    } else {
        single_bit(bit, mask)
    }
}

/// Which of so many bits alone isn't set in a mask, if it is one of them.
#[tactic(auto, using(crate::proofs::BitLemmas::gap_none, crate::proofs::BitLemmas::gap_more))]
pub fn single_gap(count: u32, mask: u32) -> Option<u32>
    requires { count ≤ 32 }
    ensures { result ≡ spec.single_gap count mask }
{
    if count == 0 {
        return None;
    }
    let bit = count - 1;
    if mask == u32::MAX - (1 << bit) {
        Some(bit)
    } else {
        single_gap(bit, mask)
    }
}
