//! Scales: how a datum keeps a number.
ghost use Rattle.std.specs.Prelude.{◌≡◌, ◌≤◌};
ghost use Rattle.fixed_point.specs.declared.scale.TheConstants.{WIDTH_LIMIT, PLACES_LIMIT};

use crate::power::power_of_two;

/// The most bits of a scale's mantissa.
pub const WIDTH_LIMIT: u8 = 64;

/// The most bits after the point of a scale, and of a number that is read.
pub const PLACES_LIMIT: u8 = 32;

/// A scale keeps the numbers `mantissa / 2^frac` whose mantissa has `width` bits, 1 to 64, a sign
/// bit among them where it is signed. The fraction is 0 to 32 and at most the width.
#[derive(Clone, Copy, Debug, PartialEq, Eq)]
pub struct Scale {
    /// Whether mantissas may be negative.
    pub signed: bool,
    /// The bits of a mantissa.
    pub width: u8,
    /// The bits after the point.
    pub frac: u8,
    pub ghost some_bits: { 1 ≤ width },
    pub ghost bits_within: { width ≤ WIDTH_LIMIT },
    pub ghost frac_within: { frac ≤ PLACES_LIMIT },
    pub ghost frac_in_width: { frac ≤ width },
}

impl Scale {
    ghost use Rattle.std.specs.Prelude.{◌↔◌, IsSome, IfSome};
    ghost use Rattle.fixed_point.specs.Scales.{IsWithinLimits, HasParts, least, greatest, is_in_range};

    /// The scale of these parts. None exactly where they are out of the limits.
    pub fn make(signed: bool, width: u8, frac: u8) -> Option<Scale>
        ensures made { IsSome result ↔ IsWithinLimits width frac }
        ensures parts { IfSome result (HasParts signed width frac) }
    {
        if width < 1 || width > WIDTH_LIMIT || frac > PLACES_LIMIT || frac > width {
            return None;
        }
        Some(Scale {
            signed,
            width,
            frac,
        })
    }

    /// The least mantissa.
    #[inline(always)]
    pub fn least(self) -> i128
        ensures { result ≡ least self }
    {
        if self.signed {
            -power_of_two(u32::from(self.width) - 1)
        } else {
            0
        }
    }

    /// The greatest mantissa.
    #[inline(always)]
    pub fn greatest(self) -> i128
        ensures { result ≡ greatest self }
    {
        if self.signed {
            power_of_two(u32::from(self.width) - 1) - 1
        } else {
            power_of_two(u32::from(self.width)) - 1
        }
    }

    /// Whether the mantissa is one of this scale.
    #[inline(always)]
    pub(crate) fn is_in_range(self, mantissa: i128) -> bool
        ensures { result ≡ is_in_range self mantissa }
    {
        self.least() <= mantissa && mantissa <= self.greatest()
    }
}
