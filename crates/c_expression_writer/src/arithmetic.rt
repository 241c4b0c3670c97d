//! Operators on numbers, in types with room for what they give.
ghost use Rattle.std.specs.Prelude.{◌≡◌, ◌≤◌, ◌^◌, pos, IfOk};
ghost use Rattle.c_subset.specs.Lines.{expr_of};
ghost use Rattle.c_subset.specs.Trees as c;
ghost use Rattle.c_functions.specs.Translation as spec;

use crate::precision::{Precisions, comparison_width, product_width, sum_width};
use actions::Op;
use c_shape::both_made;
use c_subset::{Arithmetic, CExpr, CType, Comparison, Width};
use fixed_point::power_of_two;
use flow_base::Memory;
use std::alloc::Global;

/// 2 to the exponent, as a constant of the width.
pub(crate) fn power(width: Width, exponent: u32) -> CExpr
    requires { exponent ≤ 126 }
    ensures { expr_of result ≡ c.Const (CType.Signed width) (pos (2 ^ exponent)) }
{
    let value = power_of_two(exponent);
    CExpr::Const(CType::Signed(width), value)
}

/// The expression in the type, with so many more bits after the point.
pub(crate) fn brought(alloc: Global, width: Width, bits: u32, expr: CExpr) -> Result<CExpr, Memory>
    requires { bits ≤ 126 }
    ensures { IfOk result (λ made. expr_of made ≡ spec.brought width bits (expr_of expr)) }
{
    let cast = CExpr::cast(alloc, CType::Signed(width), expr)?;
    if bits == 0 {
        return Ok(cast);
    }
    CExpr::calc(alloc, Arithmetic::Times, cast, power(width, bits))
}

/// `a + b` or `a - b`, both brought to the common fraction.
pub(crate) fn sum(
    alloc: Global,
    op: Arithmetic,
    of: Precisions,
    a: CExpr,
    b: CExpr,
) -> Result<CExpr, Memory>
    ensures { IfOk result (λ made. expr_of made
        ≡ spec.sum_c op of.left.frac of.left.size of.right.frac of.right.size
        (expr_of a) (expr_of b)) }
{
    let frac = of.left.frac.max(of.right.frac);
    let width = sum_width(of);
    let a = brought(alloc, width, frac - of.left.frac, a);
    let b = brought(alloc, width, frac - of.right.frac, b);
    let (a, b) = both_made(a, b)?;
    CExpr::calc(alloc, op, a, b)
}

/// `a * b`, in a type with room for the sum of both sizes.
pub(crate) fn product(alloc: Global, of: Precisions, a: CExpr, b: CExpr) -> Result<CExpr, Memory>
    ensures { IfOk result (λ made. expr_of made
        ≡ spec.product_c of.left.size of.right.size (expr_of a) (expr_of b)) }
{
    let to = CType::Signed(product_width(of));
    let (a, b) = both_made(CExpr::cast(alloc, to, a), CExpr::cast(alloc, to, b))?;
    CExpr::calc(alloc, Arithmetic::Times, a, b)
}

/// `a < b` and so on, both brought to the common fraction.
pub(crate) fn comparison(
    alloc: Global,
    op: Comparison,
    of: Precisions,
    a: CExpr,
    b: CExpr,
) -> Result<CExpr, Memory>
    ensures { IfOk result (λ made. expr_of made
        ≡ spec.comparison_c op of.left.frac of.left.size of.right.frac of.right.size
        (expr_of a) (expr_of b)) }
{
    let frac = of.left.frac.max(of.right.frac);
    let width = comparison_width(of);
    let a = brought(alloc, width, frac - of.left.frac, a);
    let b = brought(alloc, width, frac - of.right.frac, b);
    let (a, b) = both_made(a, b)?;
    CExpr::compare(alloc, op, a, b)
}
