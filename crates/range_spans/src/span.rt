//! Spans of whole numbers. Where a result doesn't fit, nothing is said.
ghost use Rattle.std.specs.Prelude.{◌≡◌, ◌<◌, ◌^◌, ◌*ℤ◌, ◌<ℤ◌, pos, IfSome};
ghost use Rattle.fixed_point.specs.Numbers.{floor_by, floor_div};
ghost use Rattle.range_spans.specs.Spans as spec;
ghost use Rattle.range_spans.specs.Known as known;

/// The whole numbers from one to another. Where the first is the greater one, there are none.
#[derive(Clone, Copy, Debug, PartialEq, Eq)]
pub struct Span {
    /// The least.
    pub low: i128,
    /// The greatest.
    pub high: i128,
}

/// 2 to the exponent.
fn unsigned_power(exponent: u32) -> u128
    requires { exponent < 128 }
    ensures { result ≡ 2 ^ exponent }
{
    1 << exponent
}

/// 2 to a small exponent.
pub(crate) fn small_power(exponent: u32) -> i128
    requires { exponent < 127 }
    ensures { result ≡ pos (2 ^ exponent) }
{
    unsigned_power(exponent) as i128
}

/// 2 to the exponent.
pub(crate) fn power(exponent: u32) -> Option<i128>
    ensures { IfSome result (λ p. p ≡ pos (2 ^ exponent)) }
{
    if exponent >= 127 {
        return None;
    }
    Some(small_power(exponent))
}

/// The greatest whole number that is at most the mantissa over 2 to the number of bits.
fn without_bits(mantissa: i128, bits: u32) -> i128
    requires { bits < 128 }
    ensures { result ≡ floor_by mantissa (2 ^ bits) }
{
    mantissa >> bits
}

/// The mantissa of some fraction at another one: bits after it are dropped by floor, or zero bits
/// are added.
pub(crate) fn floored(mantissa: i128, frac: u32, to: u32) -> Option<i128>
    ensures { IfSome result (λ m. m ≡ floor_by (mantissa *ℤ pos (2 ^ to)) (2 ^ frac)) }
{
    if frac >= 128 {
        return None;
    }
    let by = power(to)?;
    let raised = mantissa.checked_mul(by)?;
    Some(without_bits(raised, frac))
}

/// The floor of a quotient by a number above 0.
fn floor_div(dividend: i128, divisor: i128) -> i128
    requires { pos 0 <ℤ divisor }
    ensures { result ≡ floor_div dividend divisor }
{
    dividend.div_euclid(divisor)
}

/// The greater of two numbers.
pub(crate) fn greater(a: i128, b: i128) -> i128
    ensures { result ≡ spec.greater a b }
{
    if a <= b { b } else { a }
}

/// The smaller of two numbers.
pub(crate) fn smaller(a: i128, b: i128) -> i128
    ensures { result ≡ spec.smaller a b }
{
    if a <= b { a } else { b }
}

/// From the smaller of two numbers to the greater.
fn between(a: i128, b: i128) -> Span
    ensures { result ≡ spec.between a b }
{
    Span {
        low: smaller(a, b),
        high: greater(a, b),
    }
}

impl Span {
    /// Whether both its ends are between those of the other one, so that all its numbers are in it.
    pub fn is_inside(self, other: Span) -> bool
        ensures { result ≡ spec.is_inside self other }
    {
        other.low <= self.low && self.high <= other.high
    }

    /// The least span with the ends of both: their numbers, and those between.
    pub fn joined(self, other: Span) -> Span
        ensures { result ≡ spec.joined self other }
    {
        Span {
            low: smaller(self.low, other.low),
            high: greater(self.high, other.high),
        }
    }

    /// Products with a power of two.
    pub(crate) fn raised(self, bits: u32) -> Option<Span>
        ensures { IfSome result (λ s. s ≡ spec.raised self bits) }
    {
        let by = power(bits)?;
        let low = self.low.checked_mul(by)?;
        let high = self.high.checked_mul(by)?;
        Some(Span { low, high })
    }

    /// Products with a number.
    fn times(self, by: i128) -> Option<Span>
        ensures { IfSome result (λ s. s ≡ spec.times self by) }
    {
        let low = self.low.checked_mul(by)?;
        let high = self.high.checked_mul(by)?;
        Some(between(low, high))
    }

    /// Products with the numbers of a span.
    pub(crate) fn products(self, other: Span) -> Option<Span>
        ensures { IfSome result (λ s. s ≡ spec.products self other) }
    {
        let low = self.times(other.low)?;
        let high = self.times(other.high)?;
        Some(low.joined(high))
    }

    /// Quotients by the numbers of a span.
    pub(crate) fn quotients(self, by: Span) -> Option<Span>
        ensures { IfSome result (λ s. s ≡ known.quotients self by) }
    {
        if by.high <= by.low && 0 < by.low {
            let low = floor_div(self.low, by.low);
            let high = floor_div(self.high, by.low);
            return Some(Span { low, high });
        }
        self.around_zero()
    }

    /// The numbers with at most the greatest magnitude in it.
    pub(crate) fn around_zero(self) -> Option<Span>
        ensures { IfSome result (λ s. s ≡ spec.around_zero (spec.magnitude self)) }
    {
        let low = self.low.unsigned_abs();
        let high = self.high.unsigned_abs();
        let most = if low <= high { high } else { low };
        if most >= 1 << 127 {
            return None;
        }
        let high = most as i128;
        Some(Span { low: -high, high })
    }
}
