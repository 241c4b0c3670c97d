//! Exact numbers, and how great their parts may be in a calculation.

/// The greatest magnitude of a mantissa in a calculation, at the fraction of the calculation.
pub const MAGNITUDE_LIMIT: u128 = 1 << 100;

/// The most bits after the point in a calculation.
pub const FRACTION_LIMIT: u32 = 64;

/// The number `mantissa / 2^frac`. Different pairs may be the same number: 1 / 2 is 2 / 4.
#[derive(Clone, Copy, Debug, PartialEq, Eq)]
pub struct Num {
    /// The whole number of steps.
    pub mantissa: i128,
    /// How many bits stand after the point: a step is `2^-frac`.
    pub frac: u32,
}
