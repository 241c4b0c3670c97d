//! Spans of all data, and what guards leave of them.
ghost use Rattle.std.specs.Prelude.{◌≡◌, length, true, OnOk, IfOk, pos, ◌*ℤ◌, ◌+ℤ◌, ◌-ℤ◌, ◌^◌, ◌-◌, ◌≤◌, ◌≢◌, OnErr, IfErr};
ghost use Rattle.actions.specs.Trees.{expr_of};
ghost use Rattle.actions.specs.declared.expr.Op.TheVariants as ops;
ghost use Rattle.range_spans.specs.Known as known;
ghost use Rattle.range_spans.specs.Narrow as spec;
ghost use Rattle.range_spans.specs.Boxes.{box_of, sort_at};
ghost use Rattle.actions.specs.Names.{names_of};

use crate::declared::{Declared, Gap};
use crate::span::{Span, greater, power, smaller};
use actions::{Expr, Op, Sort};
use fixed_point::Num;

/// The number after another one.
fn after(number: i128) -> Result<i128, Gap>
    ensures { IfOk result (λ z. z ≡ number +ℤ pos 1) }
{
    match number.checked_add(1) {
        Some(next) => Ok(next),
        None => Err(Gap::Unknown),
    }
}

/// The number before another one.
fn before(number: i128) -> Result<i128, Gap>
    ensures { IfOk result (λ z. z ≡ number -ℤ pos 1) }
{
    match number.checked_sub(1) {
        Some(last) => Ok(last),
        None => Err(Gap::Unknown),
    }
}

/// The numbers of a span below a number.
fn below(by: i128, span: Span) -> Result<Span, Gap>
    ensures { IfOk result (λ s. s ≡ spec.cut ops.Lt true by span) }
{
    let most = before(by)?;
    Ok(Span {
        low: span.low,
        high: smaller(span.high, most),
    })
}

/// The numbers of a span above a number.
fn above(by: i128, span: Span) -> Result<Span, Gap>
    ensures { IfOk result (λ s. s ≡ spec.cut ops.Gt true by span) }
{
    let least = after(by)?;
    Ok(Span {
        low: greater(span.low, least),
        high: span.high,
    })
}

/// The numbers of a span that are at least a number.
fn from(by: i128, span: Span) -> Span
    ensures { result ≡ spec.cut ops.Ge true by span }
{
    Span {
        low: greater(span.low, by),
        high: span.high,
    }
}

/// The numbers of a span that are at most a number.
fn up_to(by: i128, span: Span) -> Span
    ensures { result ≡ spec.cut ops.Le true by span }
{
    Span {
        low: span.low,
        high: smaller(span.high, by),
    }
}

/// The number itself, where the span has it.
fn exactly(by: i128, span: Span) -> Span
    ensures { result ≡ spec.cut ops.Eq true by span }
{
    Span {
        low: greater(span.low, by),
        high: smaller(span.high, by),
    }
}

/// A span without a number, where that is one of its ends.
fn without(by: i128, span: Span) -> Result<Span, Gap>
    ensures { IfOk result (λ s. s ≡ spec.without by span) }
{
    let low = if span.low == by { after(by)? } else { span.low };
    let high = if span.high == by {
        before(by)?
    } else {
        span.high
    };
    Ok(Span { low, high })
}

/// What a comparison with a number leaves of a span.
fn cut(op: Op, truth: bool, by: i128, span: Span) -> Result<Span, Gap>
    ensures { IfOk result (λ s. s ≡ spec.cut op truth by span) }
{
    match op {
        Op::Lt => if truth {
            below(by, span)
        } else {
            Ok(from(by, span))
        },
        Op::Le => if truth {
            Ok(up_to(by, span))
        } else {
            above(by, span)
        },
        Op::Gt => if truth {
            above(by, span)
        } else {
            Ok(up_to(by, span))
        },
        Op::Ge => if truth {
            Ok(from(by, span))
        } else {
            below(by, span)
        },
        Op::Eq => if truth {
            Ok(exactly(by, span))
        } else {
            without(by, span)
        },
        Op::Ne => if truth {
            without(by, span)
        } else {
            Ok(exactly(by, span))
        },
        _ => Ok(span),
    }
}

/// A mantissa at a fraction that is at least its own.
fn scaled(mantissa: i128, bits: u32) -> Result<i128, Gap>
    ensures { IfOk result (λ m. m ≡ mantissa *ℤ pos (2 ^ bits)) }
{
    match power(bits) {
        None => Err(Gap::Unknown),
        Some(by) => match mantissa.checked_mul(by) {
            None => Err(Gap::Unknown),
            Some(raised) => Ok(raised),
        },
    }
}

/// What a comparison of a datum with a literal leaves of its span.
fn cut_at(sort: Sort, op: Op, truth: bool, number: Num, span: Span) -> Result<Span, Gap>
    ensures { IfOk result (λ s. s ≡ spec.cut_at sort op truth number span) }
{
    match sort {
        Sort::Flag => Ok(span),
        Sort::Number(scale) => {
            if number.frac > u32::from(scale.frac) {
                return Ok(span);
            }
            let by = scaled(number.mantissa, u32::from(scale.frac) - number.frac)?;
            cut(op, truth, by, span)
        }
    }
}

/// The spans once more. The only gap is `Memory`.
pub fn copied(declared: &Declared<'_>, spans: &[Span]) -> Result<Vec<Span>, Gap>
    ensures same { IfOk result (λ v. v.items ≡ spans.now) }
    ensures memory { IfErr result (λ gap. gap ≡ Gap.Memory) }
{
    let mut copy = Vec::new(declared.alloc);
    match copy.extend_from_slice(spans) {
        Ok(()) => Ok(copy),
        Err(_) => Err(Gap::Memory),
    }
}

/// The sort of a datum.
#[tactic(auto, using(crate::proofs::LookLemmas::sort_declared))]
pub(crate) fn sort_of(declared: &Declared<'_>, datum: u32) -> Result<Sort, Gap>
    ensures { IfOk result (λ s. s ≡ sort_at (names_of declared.now.names.now) datum) }
{
    match declared.names.vars.items().get(datum as usize) {
        None => Err(Gap::Unknown),
        Some(var) => Ok(var.sort),
    }
}

/// Gives a datum another span. The only gap is `Unknown`: the datum has no span in the list, which
/// stays as it was then.
#[tactic(auto, using(crate::proofs::LookLemmas::box_of_set))]
pub fn put(spans: &mut Vec<Span>, datum: u32, span: Span) -> Result<(), Gap>
    ensures data { OnOk result (box_of spans.new.items ≡ spec.put datum span
        (box_of spans.old.items)) }
    ensures count { OnOk result (length spans.new.items ≡ length spans.old.items) }
    ensures beyond { OnErr result (length spans.old.items ≤ datum) }
    ensures kept { OnErr result (spans.new.items ≡ spans.old.items) }
{
    if datum as usize >= spans.len() {
        return Err(Gap::Unknown);
    }
    spans[datum as usize] = span;
    Ok(())
}

/// The span of a datum. The only gap is `Unknown`: the datum has no span in the list.
pub fn look(spans: &[Span], datum: u32) -> Result<Span, Gap>
    ensures span { IfOk result (λ s. s ≡ box_of spans.now datum) }
    ensures beyond { OnErr result (length spans.now ≤ datum) }
{
    if datum as usize >= spans.len() {
        return Err(Gap::Unknown);
    }
    Ok(spans[datum as usize])
}

/// Widens the span of each datum to the least one that has the other span of that datum too. The
/// only gap is `Unknown`: the lists have two lengths.
pub fn join(spans: &mut Vec<Span>, other: &[Span]) -> Result<(), Gap>
    ensures data { OnOk result (box_of spans.new.items ≡ spec.joined_box (box_of spans.old.items)
        (box_of other.now)) }
    ensures count { OnOk result (length spans.new.items ≡ length spans.old.items) }
    ensures other { OnErr result (length spans.old.items ≢ length other.now) }
{
    if spans.len() != other.len() {
        return Err(Gap::Unknown);
    }
    for i in 0..other.len() {
        spans[i] = spans[i].joined(other[i]);
    }
    Ok(())
}

/// What a comparison leaves, where a datum is to its left and a literal to its right.
fn compare(
    declared: &Declared<'_>,
    spans: &mut Vec<Span>,
    op: Op,
    truth: bool,
    a: &Expr,
    b: &Expr,
) -> Result<(), Gap>
    ensures data { OnOk result (box_of spans.new.items ≡ spec.compare_narrow
        (sort_at (names_of declared.now.names.now)) op truth
        (spec.datum_of (expr_of a.now)) (spec.literal_of (expr_of b.now)) (box_of spans.old.items)) }
    ensures count { OnOk result (length spans.new.items ≡ length spans.old.items) }
{
    match a {
        Expr::Read(v) => match b {
            Expr::Lit(n) => {
                let sort = sort_of(declared, *v)?;
                let own = look(spans, *v)?;
                let left = cut_at(sort, op, truth, *n, own)?;
                put(spans, *v, left)
            }
            _ => Ok(()),
        },
        _ => Ok(()),
    }
}

/// What a flag that is read leaves.
fn flag(declared: &Declared<'_>, spans: &mut Vec<Span>, datum: u32, truth: bool) -> Result<(), Gap>
    ensures data { OnOk result (box_of spans.new.items ≡ spec.flag_narrow
        (sort_at (names_of declared.now.names.now) datum) datum truth
        (box_of spans.old.items)) }
    ensures count { OnOk result (length spans.new.items ≡ length spans.old.items) }
{
    let sort = sort_of(declared, datum)?;
    match sort {
        Sort::Number(_) => Ok(()),
        Sort::Flag => {
            let own = look(spans, datum)?;
            let left = cut(Op::Gt, truth, 0, own)?;
            put(spans, datum, left)
        }
    }
}

/// Narrows spans to those of the data at which an expression has that truth. A datum is narrowed
/// where it stands to the left of a comparison with a literal that has no more bits after the point
/// than the datum, and a flag where it is read by itself, through `!`, `&&` and `||`. All other
/// spans stay. Gaps: `Memory`; `Unknown` where a datum that would be narrowed isn't declared or has
/// no span, and where a literal at the fraction of the datum, or a number beside it, doesn't fit
/// 128 bits. After a gap the spans may be narrowed in part.
pub fn narrow(
    declared: &Declared<'_>,
    spans: &mut Vec<Span>,
    expr: &Expr,
    truth: bool,
) -> Result<(), Gap>
    ensures data { OnOk result (box_of spans.new.items ≡ spec.narrowed
        (sort_at (names_of declared.now.names.now)) (expr_of expr.now)
        truth (box_of spans.old.items)) }
    ensures count { OnOk result (length spans.new.items ≡ length spans.old.items) }
{
    match expr {
        Expr::Lit(_) | Expr::Flag(_) | Expr::Active(_) | Expr::Neg(_) => Ok(()),
        Expr::Read(v) => flag(declared, spans, *v, truth),
        Expr::Not(a) => narrow(declared, spans, a, !truth),
        Expr::Bin(op, a, b) => match (*op, truth) {
            (Op::And, true) | (Op::Or, false) => {
                narrow(declared, spans, a, truth)?;
                narrow(declared, spans, b, truth)
            }
            (Op::And, false) | (Op::Or, true) => {
                let mut other = copied(declared, spans)?;
                narrow(declared, spans, a, truth)?;
                narrow(declared, &mut other, b, truth)?;
                join(spans, &other)
            }
            _ => compare(declared, spans, *op, truth, a, b),
        },
    }
}

/// The spans in which the right side of an operator is evaluated.
pub(crate) fn right_side(
    declared: &Declared<'_>,
    op: Op,
    a: &Expr,
    spans: &[Span],
) -> Result<Vec<Span>, Gap>
    ensures data { IfOk result (λ v. box_of v.items ≡ spec.right_box
        (sort_at (names_of declared.now.names.now)) op (expr_of a.now)
        (box_of spans.now)) }
    ensures count { IfOk result (λ v. length v.items ≡ length spans.now) }
{
    let mut inner = copied(declared, spans)?;
    match op {
        Op::And => narrow(declared, &mut inner, a, true)?,
        Op::Or => narrow(declared, &mut inner, a, false)?,
        _ => {}
    }
    Ok(inner)
}
