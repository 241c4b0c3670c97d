//! Tests of an `if`: whether they are known, and the other way round.
ghost use Rattle.std.specs.Prelude.{◌≡◌, IfOk};
ghost use Rattle.c_subset.specs.Lines.{expr_of};
ghost use Rattle.c_subset.specs.Trees as c;
ghost use Rattle.c_pruned.specs.Tests as spec;

use c_subset::{CExpr, Comparison};
use flow_base::Memory;
use std::alloc::Global;

/// The expression in a box.
pub fn boxed_test(alloc: Global, test: CExpr) -> Result<Box<CExpr>, Memory>
    ensures { IfOk result (λ holder. holder.value ≡ test) }
{
    Ok(Box::new(alloc, test)?)
}

/// Whether a number is true, of 0 and 1.
fn truth_of_number(value: i128) -> Option<bool>
    ensures { result ≡ spec.truth_of_number value }
{
    if value == 0 {
        Some(false)
    } else if value == 1 {
        Some(true)
    } else {
        None
    }
}

/// Whether a test is true, where it is the constant 0 or 1.
pub fn truth_of(test: &CExpr) -> Option<bool>
    ensures { result ≡ spec.truth_of (expr_of test.now) }
{
    match test {
        CExpr::Const(_, value) => truth_of_number(*value),
        CExpr::Field(..)
        | CExpr::Element(..)
        | CExpr::Local(..)
        | CExpr::Cast(..)
        | CExpr::Minus(..)
        | CExpr::Bang(..)
        | CExpr::Calc(..)
        | CExpr::Divide(..)
        | CExpr::Bits(..)
        | CExpr::Compare(..)
        | CExpr::Both(..)
        | CExpr::Either(..)
        | CExpr::Choose(..) => None,
    }
}

/// The comparison that holds where that one doesn't.
fn opposite(op: Comparison) -> Comparison
    ensures { result ≡ spec.opposite op }
{
    match op {
        Comparison::IsEqual => Comparison::IsUnequal,
        Comparison::IsUnequal => Comparison::IsEqual,
        Comparison::IsBelow => Comparison::IsAtLeast,
        Comparison::IsAtMost => Comparison::IsAbove,
        Comparison::IsAbove => Comparison::IsAtMost,
        Comparison::IsAtLeast => Comparison::IsBelow,
    }
}

/// Whether a test is `!e` or a comparison.
fn is_simple(test: &CExpr) -> bool
    ensures { result ≡ spec.is_simple (expr_of test.now) }
{
    match test {
        CExpr::Bang(..) | CExpr::Compare(..) => true,
        CExpr::Const(..)
        | CExpr::Field(..)
        | CExpr::Element(..)
        | CExpr::Local(..)
        | CExpr::Cast(..)
        | CExpr::Minus(..)
        | CExpr::Calc(..)
        | CExpr::Divide(..)
        | CExpr::Bits(..)
        | CExpr::Both(..)
        | CExpr::Either(..)
        | CExpr::Choose(..) => false,
    }
}

/// `!e`
fn banged(alloc: Global, test: CExpr) -> Result<Box<CExpr>, Memory>
    ensures { IfOk result (λ made. expr_of made.value ≡ c.Bang (expr_of test)) }
{
    let inner = boxed_test(alloc, test)?;
    boxed_test(alloc, CExpr::Bang(inner))
}

/// The test that is true where that one isn't, where it is a simple one; else `!e`.
fn flipped(alloc: Global, test: CExpr) -> Result<Box<CExpr>, Memory>
    ensures { IfOk result (λ made. expr_of made.value ≡ spec.flipped (expr_of test)) }
{
    match test {
        CExpr::Bang(inner) => Ok(inner),
        CExpr::Compare(op, left, right) => {
            boxed_test(alloc, CExpr::Compare(opposite(op), left, right))
        }
        CExpr::Const(..)
        | CExpr::Field(..)
        | CExpr::Element(..)
        | CExpr::Local(..)
        | CExpr::Cast(..)
        | CExpr::Minus(..)
        | CExpr::Calc(..)
        | CExpr::Divide(..)
        | CExpr::Bits(..)
        | CExpr::Both(..)
        | CExpr::Either(..)
        | CExpr::Choose(..) => banged(alloc, test),
    }
}

/// The test that is true where `left && right` isn't.
fn negated_both(alloc: Global, left: Box<CExpr>, right: Box<CExpr>) -> Result<Box<CExpr>, Memory>
    ensures { IfOk result (λ made. expr_of made.value
        ≡ spec.negated (c.Both (expr_of left.value) (expr_of right.value))) }
{
    if is_simple(&left) && is_simple(&right) {
        let first = flipped(alloc, Box::into_inner(left))?;
        let second = flipped(alloc, Box::into_inner(right))?;
        return boxed_test(alloc, CExpr::Either(first, second));
    }
    banged(alloc, CExpr::Both(left, right))
}

/// The test that is true where `left || right` isn't.
fn negated_either(alloc: Global, left: Box<CExpr>, right: Box<CExpr>) -> Result<Box<CExpr>, Memory>
    ensures { IfOk result (λ made. expr_of made.value
        ≡ spec.negated (c.Either (expr_of left.value) (expr_of right.value))) }
{
    if is_simple(&left) && is_simple(&right) {
        let first = flipped(alloc, Box::into_inner(left))?;
        let second = flipped(alloc, Box::into_inner(right))?;
        return boxed_test(alloc, CExpr::Both(first, second));
    }
    banged(alloc, CExpr::Either(left, right))
}

/// The test that is true where that one isn't.
pub fn negated(alloc: Global, test: Box<CExpr>) -> Result<Box<CExpr>, Memory>
    ensures { IfOk result (λ made. expr_of made.value ≡ spec.negated (expr_of test.value)) }
{
    let test = Box::into_inner(test);
    match test {
        CExpr::Both(left, right) => negated_both(alloc, left, right),
        CExpr::Either(left, right) => negated_either(alloc, left, right),
        CExpr::Const(..)
        | CExpr::Field(..)
        | CExpr::Element(..)
        | CExpr::Local(..)
        | CExpr::Cast(..)
        | CExpr::Minus(..)
        | CExpr::Bang(..)
        | CExpr::Calc(..)
        | CExpr::Divide(..)
        | CExpr::Bits(..)
        | CExpr::Compare(..)
        | CExpr::Choose(..) => flipped(alloc, test),
    }
}
