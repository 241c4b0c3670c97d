//! What a datum keeps of a number or a flag.
ghost use Rattle.std.specs.Prelude.{◌≡◌, Some, IfOk};
ghost use Rattle.fixed_point.specs.Scales as scales;
ghost use Rattle.actions.specs.Names.{names_of};
ghost use Rattle.range_spans.specs.Boxes as spec;
ghost use Rattle.range_spans.specs.Sorts as sorts;

use crate::boxes::sort_of;
use crate::declared::{Declared, Gap};
use crate::known::Known;
use crate::span::{Span, floored, greater, small_power, smaller};
use actions::Sort;
use fixed_point::{Mode, Scale};

/// The least mantissa of a scale.
fn least(scale: Scale) -> i128
    ensures { result ≡ scales.least scale }
{
    if scale.signed {
        -small_power(u32::from(scale.width) - 1)
    } else {
        0
    }
}

/// The greatest mantissa of a scale.
fn greatest(scale: Scale) -> i128
    ensures { result ≡ scales.greatest scale }
{
    if scale.signed {
        small_power(u32::from(scale.width) - 1) - 1
    } else {
        small_power(u32::from(scale.width)) - 1
    }
}

/// The mantissas that a datum may keep, and whether there may be an overflow.
#[derive(Clone, Copy, Debug, PartialEq, Eq)]
pub struct Kept {
    /// The mantissas.
    pub span: Span,
    /// Whether there may be an overflow.
    pub over: bool,
}

/// All mantissas of a scale.
fn range(scale: Scale) -> Span
    ensures { result ≡ spec.range_of scale }
{
    let low = least(scale);
    let high = greatest(scale);
    Span { low, high }
}

/// All mantissas of a sort: 0 and 1 of a flag, and those in the range of a scale.
pub fn all_of(sort: Sort) -> Span
    ensures { result ≡ sorts.all_of sort }
{
    match sort {
        Sort::Flag => Span { low: 0, high: 1 },
        Sort::Number(scale) => range(scale),
    }
}

/// The ends of a span, none beyond the other end of a range.
fn inner(ends: Span, s: Span) -> Span
    ensures { result ≡ spec.inner_ends ends s }
{
    Span {
        low: smaller(s.low, ends.high),
        high: greater(s.high, ends.low),
    }
}

/// The ends of a span, none beyond the same end of a range.
fn outer(ends: Span, s: Span) -> Span
    ensures { result ≡ spec.outer_ends ends s }
{
    Span {
        low: greater(ends.low, s.low),
        high: smaller(ends.high, s.high),
    }
}

/// The mantissas of a scale that are nearest to those of a span.
fn clamped(scale: Scale, s: Span) -> Span
    ensures { result ≡ spec.clamped scale s }
{
    let ends = range(scale);
    outer(ends, inner(ends, s))
}

/// Whether all mantissas of the span are in range.
fn all_in_range(scale: Scale, s: Span) -> bool
    ensures { result ≡ spec.all_in_range scale s }
{
    let low = least(scale);
    let high = greatest(scale);
    (low <= s.low && s.low <= high) && (low <= s.high && s.high <= high)
}

/// What a datum of a scale may keep of mantissas.
fn fit_kept(mode: Mode, scale: Scale, s: Span) -> Kept
    ensures { result ≡ spec.fit_kept mode scale s }
{
    if all_in_range(scale, s) {
        return Kept {
            span: s,
            over: false,
        };
    }
    match mode {
        Mode::Saturate => Kept {
            span: clamped(scale, s),
            over: false,
        },
        Mode::Wrap => Kept {
            span: range(scale),
            over: false,
        },
        Mode::Error => Kept {
            span: clamped(scale, s),
            over: true,
        },
    }
}

/// The floors of a span of numbers of some fraction at a scale.
fn floors(s: Span, frac: u32, scale: Scale) -> Result<Span, Gap>
    ensures { IfOk result (λ t. t ≡ spec.floors s frac scale) }
{
    match floored(s.low, frac, u32::from(scale.frac)) {
        None => Err(Gap::Unknown),
        Some(low) => match floored(s.high, frac, u32::from(scale.frac)) {
            None => Err(Gap::Unknown),
            Some(high) => Ok(Span { low, high }),
        },
    }
}

/// What a datum may keep of numbers.
fn number_kept(sort: Sort, mode: Mode, s: Span, frac: u32) -> Result<Kept, Gap>
    ensures { IfOk result (λ k. Some k ≡ spec.number_kept sort mode s frac) }
{
    match sort {
        Sort::Flag => Err(Gap::Unknown),
        Sort::Number(scale) => {
            let whole = floors(s, frac, scale)?;
            Ok(fit_kept(mode, scale, whole))
        }
    }
}

/// The mantissa of a flag, as a span: 1 for true, 0 for false.
pub fn point(b: bool) -> Span
    ensures { result ≡ spec.point b }
{
    let number = if b { 1 } else { 0 };
    Span {
        low: number,
        high: number,
    }
}

/// The mode of a datum.
fn mode_of(declared: &Declared<'_>, datum: u32) -> Result<Mode, Gap>
    ensures { IfOk result (λ m. m ≡ spec.mode_at (names_of declared.now.names.now) datum) }
{
    match declared.names.vars.items().get(datum as usize) {
        None => Err(Gap::Unknown),
        Some(var) => Ok(var.mode),
    }
}

/// Whether a value may have that truth. A value that isn't known to be a flag may.
pub fn may_be(truth: bool, known: Known) -> bool
    ensures { result ≡ spec.may_be truth known }
{
    match known {
        Known::Truth(f, t) => if truth { t } else { f },
        Known::Number(..) => true,
        Known::Nothing => true,
    }
}

/// What a datum may keep of numbers of a span, whose mantissas have `frac` bits after the point:
/// the floors at its own fraction where all are in range, else what its mode makes of them. Only in
/// mode `error` there may be an overflow. The only gap is `Unknown`: the datum isn't declared or is
/// a flag, or a mantissa at its fraction doesn't fit 128 bits.
pub fn kept_at(declared: &Declared<'_>, datum: u32, span: Span, frac: u32) -> Result<Kept, Gap>
    ensures { IfOk result (λ k. Some k ≡ spec.number_kept
        (spec.sort_at (names_of declared.now.names.now) datum)
        (spec.mode_at (names_of declared.now.names.now) datum) span frac) }
{
    let sort = sort_of(declared, datum)?;
    let mode = mode_of(declared, datum)?;
    number_kept(sort, mode, span, frac)
}
