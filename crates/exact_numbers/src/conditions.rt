//! Whether the conditions of a call hold.
ghost use Rattle.std.specs.Prelude.{◌≡◌, ◌≤◌, ◌+◌, ◌^◌, ◌*ℤ◌, ◌↔◌, pos, IsTrue, unsigned_abs};
ghost use Rattle.fixed_point.specs.Numbers.{scaled, CanAlign, CanDivide};
ghost use Rattle.fixed_point.specs.declared.num.TheConstants.{MAGNITUDE_LIMIT, FRACTION_LIMIT};

use fixed_point::{FRACTION_LIMIT, MAGNITUDE_LIMIT, Num, Scale};

/// Whether the mantissa is at most 2^100 in magnitude.
pub fn is_within(mantissa: i128) -> bool
    ensures { IsTrue result ↔ (unsigned_abs mantissa ≤ MAGNITUDE_LIMIT) }
{
    mantissa.unsigned_abs() <= MAGNITUDE_LIMIT
}

/// Whether the mantissa with `bits` more bits is at most 2^100 in magnitude.
fn has_room(mantissa: i128, bits: u32) -> bool
    ensures { IsTrue result ↔ (unsigned_abs (mantissa *ℤ pos (2 ^ bits)) ≤ MAGNITUDE_LIMIT) }
{
    mantissa == 0 || (bits <= 100 && mantissa.unsigned_abs() <= MAGNITUDE_LIMIT >> bits)
}

/// Whether the numbers have a sum, a difference and an order.
pub fn can_align(a: Num, b: Num) -> bool
    ensures { IsTrue result ↔ CanAlign a b }
{
    let frac = a.frac.max(b.frac);
    frac <= FRACTION_LIMIT
        && has_room(a.mantissa, frac - a.frac)
        && has_room(b.mantissa, frac - b.frac)
}

/// Whether the numbers have a product.
pub fn can_multiply(a: Num, b: Num) -> bool
    ensures { IsTrue result
        ↔ ((unsigned_abs (a.mantissa *ℤ b.mantissa) ≤ MAGNITUDE_LIMIT) × (a.frac + b.frac ≤ FRACTION_LIMIT)) }
{
    let frac = a.frac.checked_add(b.frac);
    let mantissa = a.mantissa.checked_mul(b.mantissa);
    frac.is_some_and(|frac| frac <= FRACTION_LIMIT) && mantissa.is_some_and(is_within)
}

/// Whether the numbers have a quotient, or the divisor is 0.
pub fn can_divide(a: Num, b: Num) -> bool
    ensures { IsTrue result ↔ CanDivide a b }
{
    let frac = a.frac.max(b.frac);
    frac <= FRACTION_LIMIT && has_room(a.mantissa, frac - a.frac + b.frac)
}

/// Whether the number can be brought to the scale.
pub fn can_fit(a: Num, to: Scale) -> bool
    ensures { IsTrue result ↔ ((unsigned_abs a.mantissa ≤ MAGNITUDE_LIMIT)
        × (unsigned_abs (scaled a to.frac) ≤ MAGNITUDE_LIMIT)) }
{
    let added = u32::from(to.frac).saturating_sub(a.frac);
    is_within(a.mantissa) && has_room(a.mantissa, added)
}

/// Whether the number has a decimal text.
pub fn can_write(a: Num) -> bool
    ensures { IsTrue result ↔ ((unsigned_abs a.mantissa ≤ MAGNITUDE_LIMIT) × (a.frac ≤ FRACTION_LIMIT)) }
{
    is_within(a.mantissa) && a.frac <= FRACTION_LIMIT
}
