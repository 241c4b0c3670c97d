//! Binary numbers of literals.
ghost use Rattle.std.specs.Prelude.{◌<◌, ◌≤◌, ◌^◌};

/// The number `mantissa / 2^bits`.
#[derive(Clone, Copy)]
pub(crate) struct Binary {
    /// Less than 2^99.
    pub mantissa: u128,
    /// At most 32.
    pub bits: u32,
    pub ghost short: { mantissa < 2 ^ 99 },
    pub ghost few: { bits ≤ 32 },
}
