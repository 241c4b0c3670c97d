//! What is known of the value of an expression where each datum is in a span.
ghost use Rattle.std.specs.Prelude.{◌≡◌, ℕ, IfSome};
ghost use Rattle.range_spans.specs.Known as spec;

use crate::span::Span;
use actions::{Op, Sort};

/// What is known of a value.
#[derive(Clone, Copy, Debug, PartialEq, Eq)]
pub enum Known {
    /// Whether a flag may be false, and whether it may be true.
    Truth(bool, bool),
    /// The mantissas of a number of some fraction.
    Number(Span, u32),
    /// Nothing.
    Nothing,
}

/// What is known of a value, and whether a divisor may be 0.
#[derive(Clone, Copy, Debug, PartialEq, Eq)]
pub struct Guess {
    /// The value.
    pub known: Known,
    /// Whether a divisor may be 0.
    pub zero: bool,
}

/// `!`
pub(crate) fn not_known(a: Known) -> Known
    ensures { result ≡ spec.not_known a }
{
    match a {
        Known::Truth(f, t) => Known::Truth(t, f),
        Known::Number(..) => Known::Nothing,
        Known::Nothing => Known::Nothing,
    }
}

/// `-` of one number
pub(crate) fn neg_known(a: Known) -> Option<Known>
    ensures { IfSome result (λ k. k ≡ spec.neg_known a) }
{
    match a {
        Known::Truth(..) => Some(Known::Nothing),
        Known::Number(s, frac) => {
            let low = s.high.checked_neg()?;
            let high = s.low.checked_neg()?;
            Some(Known::Number(Span { low, high }, frac))
        }
        Known::Nothing => Some(Known::Nothing),
    }
}

/// An operator on two flags.
fn of_truths(op: Op, f: bool, t: bool, g: bool, u: bool) -> Known
    ensures { result ≡ spec.of_operator op (spec.Truth f t) (spec.Truth g u) }
{
    match op {
        Op::Or => Known::Truth(f && g, t || u),
        Op::And => Known::Truth(f || g, t && u),
        Op::Eq => Known::Truth((f && u) || (t && g), (f && g) || (t && u)),
        Op::Ne => Known::Truth((f && g) || (t && u), (f && u) || (t && g)),
        _ => Known::Nothing,
    }
}

/// An operator of two numbers at one fraction.
fn of_aligned(op: Op, s: Span, t: Span, frac: u32) -> Option<Known>
    ensures { IfSome result (λ k. k ≡ spec.aligned_known op s t frac) }
{
    match op {
        Op::Eq => Some(Known::Truth(
            !(s.high <= t.low && t.high <= s.low),
            s.low <= t.high && t.low <= s.high,
        )),
        Op::Ne => Some(Known::Truth(
            s.low <= t.high && t.low <= s.high,
            !(s.high <= t.low && t.high <= s.low),
        )),
        Op::Lt => Some(Known::Truth(t.low <= s.high, s.low < t.high)),
        Op::Le => Some(Known::Truth(t.low < s.high, s.low <= t.high)),
        Op::Gt => Some(Known::Truth(s.low <= t.high, t.low < s.high)),
        Op::Ge => Some(Known::Truth(s.low < t.high, t.low <= s.high)),
        Op::Add => {
            let low = s.low.checked_add(t.low)?;
            let high = s.high.checked_add(t.high)?;
            Some(Known::Number(Span { low, high }, frac))
        }
        Op::Sub => {
            let low = s.low.checked_sub(t.high)?;
            let high = s.high.checked_sub(t.low)?;
            Some(Known::Number(Span { low, high }, frac))
        }
        Op::Or | Op::And | Op::Mul | Op::Div => Some(Known::Nothing),
    }
}

/// An operator on two numbers.
fn of_two(op: Op, s: Span, f: u32, t: Span, g: u32) -> Option<Known>
    ensures { IfSome result (λ k. k ≡ spec.of_operator op (spec.Number s f) (spec.Number t g)) }
{
    let frac = if f <= g { g } else { f };
    match op {
        Op::Or | Op::And => Some(Known::Nothing),
        Op::Mul => {
            let product = s.products(t)?;
            let sum = f.checked_add(g)?;
            Some(Known::Number(product, sum))
        }
        Op::Div => {
            let bits = (frac - f).checked_add(g)?;
            let raised = s.raised(bits)?;
            let quotient = raised.quotients(t)?;
            Some(Known::Number(quotient, frac))
        }
        _ => {
            let left = s.raised(frac - f)?;
            let right = t.raised(frac - g)?;
            of_aligned(op, left, right, frac)
        }
    }
}

/// An operator.
pub(crate) fn of_operator(op: Op, a: Known, b: Known) -> Option<Known>
    ensures { IfSome result (λ k. k ≡ spec.of_operator op a b) }
{
    match (a, b) {
        (Known::Truth(f, t), Known::Truth(g, u)) => Some(of_truths(op, f, t, g, u)),
        (Known::Number(s, f), Known::Number(t, g)) => of_two(op, s, f, t, g),
        _ => Some(Known::Nothing),
    }
}

/// Whether an operator may divide by 0.
pub(crate) fn divides_by_zero(op: Op, b: Known) -> bool
    ensures { result ≡ spec.divides_by_zero op b }
{
    match op {
        Op::Div => match b {
            Known::Truth(..) => true,
            Known::Number(s, _) => s.low <= 0 && 0 <= s.high,
            Known::Nothing => true,
        },
        _ => false,
    }
}

/// A datum of a sort with its mantissa in a span.
pub(crate) fn of_sort(sort: Sort, s: Span) -> Known
    ensures { result ≡ spec.of_sort sort s }
{
    match sort {
        Sort::Flag => Known::Truth(s.low <= 0, 0 < s.high),
        Sort::Number(scale) => Known::Number(s, u32::from(scale.frac)),
    }
}
