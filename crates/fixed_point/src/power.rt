//! Powers of two and of ten.
ghost use Rattle.std.specs.Prelude.{◌≡◌, ◌<◌, ◌≤◌, ◌^◌, pos};
ghost use Rattle.fixed_point.specs.declared.reading.TheConstants.{DIGIT_LIMIT};

/// 2 to the exponent, which is at most 126.
#[inline(always)]
pub fn power_of_two(exponent: u32) -> i128
    requires { exponent < 127 }
    ensures { result ≡ pos (2 ^ exponent) }
{
    unsigned_power(exponent) as i128
}

/// 2 to the exponent.
#[inline(always)]
pub(crate) fn unsigned_power(exponent: u32) -> u128
    requires { exponent < 128 }
    ensures { result ≡ 2 ^ exponent }
{
    1 << exponent
}

/// 10 to the exponent.
pub(crate) fn power_of_ten(exponent: u32) -> u128
    requires { exponent ≤ DIGIT_LIMIT }
    ensures value { result ≡ 10 ^ exponent }
    ensures some { 1 ≤ result }
    ensures most { result ≤ 10 ^ DIGIT_LIMIT }
{
    10u128.pow(exponent)
}
