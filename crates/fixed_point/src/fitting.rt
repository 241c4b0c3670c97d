//! How a number is brought to a scale.
ghost use Rattle.std.specs.Prelude.{◌≡◌, ◌≤◌, ◌<◌, ◌^◌, ◌↔◌, IsTrue, unsigned_abs};
ghost use Rattle.fixed_point.specs.Numbers as spec;
ghost use Rattle.fixed_point.specs.Scales as scales;
ghost use Rattle.fixed_point.specs.declared.num.TheConstants.{MAGNITUDE_LIMIT};

use crate::fraction::{floored, is_whole};
use crate::num::Num;
use crate::power::power_of_two;
use crate::scale::Scale;
use thiserror::Error;

/// No mantissa of any scale is greater in magnitude.
const FARTHEST: u128 = 1 << 64;

/// What is done with a mantissa that is out of a scale's range.
#[derive(Clone, Copy, Debug, PartialEq, Eq)]
pub enum Mode {
    /// The nearest end of the range is kept.
    Saturate,
    /// The mantissa in range that differs by a multiple of `2^width` is kept.
    Wrap,
    /// The call fails with `Overflow`.
    Error,
}

/// The mantissa is out of range, and the mode is `Error`.
#[derive(Clone, Copy, Debug, PartialEq, Eq, Error)]
#[error("mantissa out of range")]
pub struct Overflow;

/// The mantissa in the scale's range that differs by a multiple of `2^width`.
fn wrapped(to: Scale, mantissa: i128) -> i128
    requires { unsigned_abs mantissa ≤ MAGNITUDE_LIMIT }
    ensures { result ≡ scales.wrapped to mantissa }
{
    let least = to.least();
    least + (mantissa - least).rem_euclid(power_of_two(u32::from(to.width)))
}

/// Brings the number to the scale: bits after its fraction are dropped by floor, or zero bits are
/// added, and out of range the mode decides.
#[tactic(auto, unfolding(crate::specs::Scales::fitted))]
#[inline(always)]
pub fn fit(a: Num, to: Scale, mode: Mode) -> Result<i128, Overflow>
    requires own { unsigned_abs a.mantissa ≤ MAGNITUDE_LIMIT }
    requires brought { unsigned_abs (spec.scaled a to.frac) ≤ MAGNITUDE_LIMIT }
    ensures { result ≡ scales.fitted a to mode }
{
    let mantissa = floored(a, u32::from(to.frac));
    if to.is_in_range(mantissa) {
        return Ok(mantissa);
    }
    match mode {
        Mode::Saturate => Ok(if mantissa < to.least() {
            to.least()
        } else {
            to.greatest()
        }),
        Mode::Wrap => Ok(wrapped(to, mantissa)),
        Mode::Error => Err(Overflow),
    }
}

/// Whether the number's own mantissa is greater in magnitude than that of any scale, and the
/// fraction has no fewer bits: then the mantissa at the fraction is greater, too.
fn is_far(a: Num, frac: u32) -> bool
    ensures { IsTrue result ↔ ((a.frac ≤ frac) × (2 ^ 64 < unsigned_abs a.mantissa)) }
{
    a.frac <= frac && a.mantissa.unsigned_abs() > FARTHEST
}

/// The mantissa of the equal value of the scale. None exactly where it has no equal value.
#[tactic(auto, unfolding(crate::specs::Scales::exact_mantissa))]
pub fn exact(a: Num, to: Scale) -> Option<i128>
    ensures { result ≡ scales.exact_mantissa a to }
{
    let frac = u32::from(to.frac);
    if !is_whole(a, frac) || is_far(a, frac) {
        return None;
    }
    let mantissa = floored(a, frac);
    to.is_in_range(mantissa).then_some(mantissa)
}
