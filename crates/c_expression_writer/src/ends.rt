//! The ends of the range of a scale, and tests against them.
ghost use Rattle.std.specs.Prelude.{◌≡◌, IfOk, if◌then◌else◌};
ghost use Rattle.c_subset.specs.Lines.{expr_of};
ghost use Rattle.c_subset.specs.Trees as c;
ghost use Rattle.c_functions.specs.Storing as spec;

use c_shape::both_made;
use c_subset::{CExpr, CType, Comparison, Width};
use fixed_point::Scale;
use flow_base::Memory;
use std::alloc::Global;

/// A number of that size as a local of a width, which goes to that scale.
#[derive(Clone, Copy)]
pub(crate) struct Brought {
    pub scale: Scale,
    pub size: u32,
    pub width: Width,
    pub local: u32,
}

/// Whether numbers of the size can pass the upper end of a scale, and the lower one where it is
/// signed.
fn can_pass(scale: Scale, size: u32) -> bool
    ensures { result ≡ spec.can_pass scale size }
{
    let width = u32::from(scale.width);
    let bits = if scale.signed { width - 1 } else { width };
    bits <= size
}

/// Whether numbers of the size can pass the lower end of a scale: without a sign it is 0.
fn can_pass_low(scale: Scale, size: u32) -> bool
    ensures { result ≡ spec.can_pass_low scale size }
{
    !scale.signed || can_pass(scale, size)
}

/// The local.
pub(crate) fn value(of: Brought) -> CExpr
    ensures { expr_of result ≡ c.Local (CType.Signed of.width) of.local }
{
    CExpr::Local(CType::Signed(of.width), of.local)
}

/// The lower end.
fn low(of: Brought) -> CExpr
    ensures { expr_of result ≡ spec.low_c of.scale of.width }
{
    let end = of.scale.least();
    CExpr::Const(CType::Signed(of.width), end)
}

/// The upper end.
fn high(of: Brought) -> CExpr
    ensures { expr_of result ≡ spec.high_c of.scale of.width }
{
    let end = of.scale.greatest();
    CExpr::Const(CType::Signed(of.width), end)
}

/// The test that the number is below the lower end.
fn below(alloc: Global, of: Brought) -> Result<CExpr, Memory>
    ensures { IfOk result (λ test. expr_of test
        ≡ spec.below_c of.scale of.width (c.Local (CType.Signed of.width) of.local)) }
{
    CExpr::compare(alloc, Comparison::IsBelow, value(of), low(of))
}

/// The test that the number is above the upper end.
fn above(alloc: Global, of: Brought) -> Result<CExpr, Memory>
    ensures { IfOk result (λ test. expr_of test
        ≡ spec.above_c of.scale of.width (c.Local (CType.Signed of.width) of.local)) }
{
    CExpr::compare(alloc, Comparison::IsAbove, value(of), high(of))
}

/// The number, or the upper end where it is above that.
fn up_to_high(alloc: Global, of: Brought) -> Result<CExpr, Memory>
    ensures { IfOk result (λ made. expr_of made ≡ (if spec.can_pass of.scale of.size
        then c.Choose (CType.Signed of.width)
        (spec.above_c of.scale of.width (c.Local (CType.Signed of.width) of.local))
        (spec.high_c of.scale of.width) (c.Local (CType.Signed of.width) of.local)
        else c.Local (CType.Signed of.width) of.local)) }
{
    if !can_pass(of.scale, of.size) {
        return Ok(value(of));
    }
    let test = above(alloc, of)?;
    CExpr::choose(alloc, CType::Signed(of.width), test, high(of), value(of))
}

/// The nearest number in range.
pub(crate) fn saturated(alloc: Global, of: Brought) -> Result<CExpr, Memory>
    ensures { IfOk result (λ made. expr_of made ≡ spec.saturated_c of.scale of.size of.width
        (c.Local (CType.Signed of.width) of.local)) }
{
    let upper = up_to_high(alloc, of);
    if !can_pass_low(of.scale, of.size) {
        return upper;
    }
    let (test, upper) = both_made(below(alloc, of), upper)?;
    CExpr::choose(alloc, CType::Signed(of.width), test, low(of), upper)
}

/// The test that the number is out of range.
pub(crate) fn out_of_range(alloc: Global, of: Brought) -> Result<CExpr, Memory>
    ensures { IfOk result (λ test. expr_of test ≡ spec.out_c of.scale of.size of.width
        (c.Local (CType.Signed of.width) of.local)) }
{
    match (can_pass_low(of.scale, of.size), can_pass(of.scale, of.size)) {
        (true, true) => {
            let (below, above) = both_made(below(alloc, of), above(alloc, of))?;
            CExpr::either(alloc, below, above)
        }
        (true, false) => below(alloc, of),
        (false, true) => above(alloc, of),
        (false, false) => Ok(CExpr::Const(CType::Truth, 0)),
    }
}
