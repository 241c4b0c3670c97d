//! Decimal numbers in steps of a power of two.
ghost use Rattle.std.specs.Prelude.{◌≡◌, ◌≤◌};
ghost use Rattle.fixed_point.specs.Reading as spec;
ghost use Rattle.fixed_point.specs.declared.reading.TheConstants.{DIGIT_LIMIT};

use crate::power::power_of_ten;
use crate::scale::PLACES_LIMIT;

/// Every mantissa that is read is less than this.
pub const READ_LIMIT: u128 = 1 << 99;

/// How many fractions a number that is read may have: 0 to `PLACES_LIMIT`.
const FRACTION_COUNT: u32 = PLACES_LIMIT as u32 + 1;

/// The fewest bits after the point, up to 32, at which `units / 10^places` is exact, if there are
/// any.
pub(crate) fn exact_frac(units: u128, places: u32) -> Option<u32>
    requires { places ≤ DIGIT_LIMIT }
    ensures { result ≡ spec.exact_frac units places }
{
    let one = power_of_ten(places);
    let mut rest = units % one;
    for frac in 0..FRACTION_COUNT {
        if rest == 0 {
            return Some(frac);
        }
        rest = rest * 2 % one;
    }
    None
}

/// The floor of `units / 10^places` in steps of `2^-frac`. None where it is `2^99` or more.
pub(crate) fn steps(units: u128, places: u32, frac: u32) -> Option<u128>
    requires { places ≤ DIGIT_LIMIT }
    ensures { result ≡ spec.steps_within units places frac }
{
    let one = power_of_ten(places);
    let mut whole = units / one;
    let mut rest = units % one;
    for _bits in 0..frac {
        if whole >= READ_LIMIT {
            return None;
        }
        rest *= 2;
        whole = whole * 2 + rest / one;
        rest %= one;
    }
    (whole < READ_LIMIT).then_some(whole)
}
