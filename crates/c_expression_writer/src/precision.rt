//! The precision of numbers, and the width in which they are computed.
ghost use Rattle.std.specs.Prelude.{◌≡◌, ◌+◌, ◌≤◌, MatchOption};
ghost use Rattle.actions.specs.Sorts.{IsNarrow, size_at};
ghost use Rattle.c_functions.specs.Translation as spec;
ghost use Rattle.c_functions.specs.Storing.{floored_width};

use actions::ExprSort;
use c_subset::Width;

/// How precise the numbers of a sort are.
#[derive(Clone, Copy)]
pub(crate) struct Precision {
    /// The bits after the point.
    pub frac: u32,
    /// The mantissa is at most `2^size` in magnitude.
    pub size: u32,
    pub ghost frac_within: { frac ≤ 64 },
    pub ghost size_within: { size ≤ 100 },
}

/// How precise two operands are.
#[derive(Clone, Copy)]
pub(crate) struct Precisions {
    pub left: Precision,
    pub right: Precision,
}

/// How precise the numbers of the sort are. None of a flag.
pub(crate) fn precision_of(sort: ExprSort) -> Option<Precision>
    requires { IsNarrow sort }
    ensures { MatchOption result (sort ≡ ExprSort.Flag)
        (λ precision. sort ≡ ExprSort.Number precision.frac precision.size) }
{
    match sort {
        ExprSort::Flag => None,
        ExprSort::Number { frac, size } => Some(Precision { frac, size }),
    }
}

/// The size at a fraction that is at least the numbers' own.
pub(crate) fn size_at(frac: u32, own: Precision) -> u32
    requires { frac ≤ 64 }
    ensures size { result ≡ size_at frac own.frac own.size }
    ensures within { result ≤ 164 }
{
    own.size + frac.saturating_sub(own.frac)
}

/// The least width in which numbers of at most `2^size` in magnitude are computed.
pub(crate) fn width_for(size: u32) -> Width
    ensures { result ≡ spec.width_for size }
{
    if size <= 30 {
        Width::W32
    } else if size <= 62 {
        Width::W64
    } else {
        Width::W128
    }
}

/// The width of a sum: one bit more than the wider operand at the greater fraction.
pub(crate) fn sum_width(of: Precisions) -> Width
    ensures { result ≡ spec.sum_width of.left.frac of.left.size of.right.frac of.right.size }
{
    let frac = of.left.frac.max(of.right.frac);
    width_for(1 + size_at(frac, of.left).max(size_at(frac, of.right)))
}

/// The width of a product: of the sum of the sizes.
pub(crate) fn product_width(of: Precisions) -> Width
    ensures { result ≡ spec.width_for (of.left.size + of.right.size) }
{
    width_for(of.left.size + of.right.size)
}

/// The width of a comparison: of the wider operand at the greater fraction.
pub(crate) fn comparison_width(of: Precisions) -> Width
    ensures { result ≡ spec.comparison_width of.left.frac of.left.size of.right.frac of.right.size }
{
    let frac = of.left.frac.max(of.right.frac);
    width_for(size_at(frac, of.left).max(size_at(frac, of.right)))
}

/// The width of a quotient: of its dividend and of its divisor.
pub(crate) fn quotient_width(of: Precisions) -> Width
    ensures { result ≡ spec.quotient_width of.left.frac of.left.size of.right.frac of.right.size }
{
    let frac = of.left.frac.max(of.right.frac);
    width_for((size_at(frac, of.left) + of.right.frac).max(of.right.size))
}

/// The width in which numbers are brought to a fraction.
pub(crate) fn floored_width(from: Precision, frac: u32) -> Width
    requires { frac ≤ 64 }
    ensures { result ≡ floored_width from.frac from.size frac }
{
    width_for(size_at(frac, from).max(from.frac.saturating_sub(frac)))
}
