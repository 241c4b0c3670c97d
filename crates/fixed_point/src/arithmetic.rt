//! Sums, products and the order of exact numbers.
ghost use Rattle.std.specs.Prelude.{◌≡◌, ◌≤◌, ◌+◌, ◌^◌, ◌*ℤ◌, unsigned_abs};
ghost use Rattle.fixed_point.specs.Numbers as spec;
ghost use Rattle.fixed_point.specs.declared.num.TheConstants.{MAGNITUDE_LIMIT, FRACTION_LIMIT};

use crate::fraction::scaled;
use crate::num::Num;
use std::cmp::Ordering;

/// The mantissas of both numbers at the greater of their fractions.
#[inline(always)]
fn aligned(a: Num, b: Num) -> (i128, i128)
    requires { spec.CanAlign a b }
    ensures left { result.0 ≡ spec.scaled a (spec.common_frac a b) }
    ensures right { result.1 ≡ spec.scaled b (spec.common_frac a b) }
{
    if a.frac == b.frac {
        return (a.mantissa, b.mantissa);
    }
    let frac = a.frac.max(b.frac);
    (scaled(a, frac), scaled(b, frac))
}

/// The exact sum, at the greater of the two fractions.
#[inline(always)]
pub fn add(a: Num, b: Num) -> Num
    requires { spec.CanAlign a b }
    ensures { result ≡ spec.sum_of a b }
{
    let (left, right) = aligned(a, b);
    Num {
        mantissa: left + right,
        frac: a.frac.max(b.frac),
    }
}

/// The exact difference, at the greater of the two fractions.
#[inline(always)]
pub fn sub(a: Num, b: Num) -> Num
    requires { spec.CanAlign a b }
    ensures { result ≡ spec.difference_of a b }
{
    let (left, right) = aligned(a, b);
    Num {
        mantissa: left - right,
        frac: a.frac.max(b.frac),
    }
}

/// The order of the two values.
#[inline(always)]
pub fn compare(a: Num, b: Num) -> Ordering
    requires { spec.CanAlign a b }
    ensures { result ≡ spec.order_of a b }
{
    let (left, right) = aligned(a, b);
    left.cmp(&right)
}

/// The number with the other sign.
#[inline(always)]
pub fn neg(a: Num) -> Num
    requires { unsigned_abs a.mantissa ≤ MAGNITUDE_LIMIT }
    ensures { result ≡ spec.negation_of a }
{
    Num {
        mantissa: -a.mantissa,
        frac: a.frac,
    }
}

/// The exact product, whose fraction is the sum of the two.
#[inline(always)]
pub fn mul(a: Num, b: Num) -> Num
    requires size { unsigned_abs (a.mantissa *ℤ b.mantissa) ≤ MAGNITUDE_LIMIT }
    requires frac { a.frac + b.frac ≤ FRACTION_LIMIT }
    ensures { result ≡ spec.product_of a b }
{
    Num {
        mantissa: a.mantissa * b.mantissa,
        frac: a.frac + b.frac,
    }
}
