//! Numbers at another fraction.
ghost use Rattle.std.specs.Prelude.{◌≡◌, ◌≤◌, ◌<◌, ◌^◌, unsigned_abs};
ghost use Rattle.fixed_point.specs.Numbers as spec;
ghost use Rattle.fixed_point.specs.declared.num.TheConstants.{MAGNITUDE_LIMIT, FRACTION_LIMIT};

use crate::num::Num;
use crate::power::{power_of_two, unsigned_power};

/// The mantissa of the same value at a fraction that is at least its own.
#[inline(always)]
pub(crate) fn scaled(a: Num, frac: u32) -> i128
    requires above { a.frac ≤ frac }
    requires most { frac ≤ FRACTION_LIMIT }
    requires size { unsigned_abs (spec.scaled a frac) ≤ MAGNITUDE_LIMIT }
    ensures { result ≡ spec.scaled a frac }
{
    a.mantissa * power_of_two(frac - a.frac)
}

/// The mantissa without its last bits, rounded towards minus infinity.
#[inline(always)]
fn without_bits(mantissa: i128, bits: u32) -> i128
    requires { bits < 128 }
    ensures { result ≡ spec.floor_by mantissa (2 ^ bits) }
{
    mantissa >> bits
}

/// The mantissa at a fraction: bits after it are dropped by floor, or zero bits are added.
#[inline(always)]
pub(crate) fn floored(a: Num, frac: u32) -> i128
    requires frac { frac ≤ FRACTION_LIMIT }
    requires size { a.frac ≤ frac → unsigned_abs (spec.scaled a frac) ≤ MAGNITUDE_LIMIT }
    ensures { result ≡ spec.floored a frac }
{
    if a.frac <= frac {
        scaled(a, frac)
    } else {
        // Once 127 bits are dropped, only the sign bit is left.
        without_bits(a.mantissa, (a.frac - frac).min(127))
    }
}

/// Whether the value is a whole number of steps of the fraction.
pub(crate) fn is_whole(a: Num, frac: u32) -> bool
    ensures { result ≡ spec.is_whole a frac }
{
    if a.frac <= frac || a.mantissa == 0 {
        return true;
    }
    let dropped = a.frac - frac;
    dropped < 128 && a.mantissa.unsigned_abs() % unsigned_power(dropped) == 0
}
