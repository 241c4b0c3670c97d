//! Quotients, rounded towards minus infinity.
ghost use Rattle.std.specs.Prelude.{◌≡◌, ◌≢◌, ◌≤◌, ◌^◌, pos, unsigned_abs};
ghost use Rattle.fixed_point.specs.Numbers as spec;
ghost use Rattle.fixed_point.specs.declared.num.TheConstants.{MAGNITUDE_LIMIT};

use crate::num::Num;
use crate::power::power_of_two;
use thiserror::Error;

/// The divisor is 0.
#[derive(Clone, Copy, Debug, PartialEq, Eq, Error)]
#[error("division by zero")]
pub struct Zero;

/// The quotient, rounded towards minus infinity.
fn floor_div(dividend: i128, divisor: i128) -> i128
    requires divisor { divisor ≢ pos 0 }
    requires size { unsigned_abs dividend ≤ MAGNITUDE_LIMIT }
    ensures { result ≡ spec.floor_div dividend divisor }
{
    // By a negative divisor `div_euclid` rounds towards plus infinity.
    if 0 < divisor {
        dividend.div_euclid(divisor)
    } else {
        -(-dividend).div_euclid(divisor)
    }
}

/// The floor of the quotient, at the greater of the two fractions.
pub fn div(a: Num, b: Num) -> Result<Num, Zero>
    requires { spec.CanDivide a b }
    ensures { result ≡ spec.quotient_of a b }
{
    if b.mantissa == 0 {
        return Err(Zero);
    }
    let frac = a.frac.max(b.frac);
    Ok(Num {
        mantissa: floor_div(dividend(a, b), b.mantissa),
        frac,
    })
}

/// The mantissa of the dividend, scaled so that the quotient is at the greater fraction.
fn dividend(a: Num, b: Num) -> i128
    requires { spec.CanDivide a b }
    ensures { result ≡ spec.dividend_of a b }
{
    if a.mantissa == 0 {
        return 0;
    }
    a.mantissa * power_of_two(a.frac.max(b.frac) - a.frac + b.frac)
}
