//! What an assignment and a guard make of a set of worlds.
ghost use Rattle.std.specs.Prelude.{◌≡◌, Some, true, false, slice_index_or, IfOk, OnOk};
ghost use Rattle.actions.specs.Names.{names_of};
ghost use Rattle.actions.specs.Trees.{expr_of};
ghost use Rattle.sos_rules.specs.Searches as rules;
ghost use Rattle.range_spans.specs.declared.known.Known.TheVariants as knowns;
ghost use Rattle.range_worlds.specs.Leads.{At, Among, Leads, chart_in, cert_in};
ghost use Rattle.range_worlds.specs.Steps.{IsTold, IsNarrowed, IsPut, Takes, Sides, only, guard_ends};

use crate::setting::{Lack, Setting};
use crate::worlds::add;
use actions::Expr;
use range_rules::Around;
use range_spans::{
    Declared, Known, Span, copied, guess, kept_at, look, may_be, narrow, point, put,
};

/// Where memory comes from, and what the chart declares.
fn declared<'a>(setting: &Setting<'a>) -> Declared<'a>
    ensures { names_of result.names.now ≡ (chart_in setting.now).names }
{
    Declared {
        alloc: setting.alloc,
        names: setting.chart.names(),
    }
}

/// Goes on where no divisor may be 0 or the certificate says that one may be. Else the answer is
/// `Zero`.
fn zero_allowed(setting: &Setting<'_>, zero: bool) -> Result<(), Lack>
    ensures { OnOk result (zero ≡ true → (cert_in setting.now).zero ≡ true) }
{
    if !zero {
        return Ok(());
    }
    if setting.cert.zero {
        Ok(())
    } else {
        Err(Lack::Zero)
    }
}

/// Goes on where a datum doesn't overflow or the certificate says that it may. Else the answer is
/// `Overflow`.
fn overflow_allowed(setting: &Setting<'_>, datum: u32, over: bool) -> Result<(), Lack>
    ensures { OnOk result (over ≡ true
        → slice_index_or (cert_in setting.now).over.items datum false ≡ true) }
{
    if !over {
        return Ok(());
    }
    if may_overflow(setting, datum) {
        Ok(())
    } else {
        Err(Lack::Overflow(datum))
    }
}

/// What is known of the value of an expression in the worlds of a set. Where a divisor may be 0 and
/// the certificate doesn't say so the answer is `Zero`, and `Unknown` where nothing can be said of
/// the value.
fn told(setting: &Setting<'_>, x: &Around, expr: &Expr) -> Result<Known, Lack>
    ensures { IfOk result (λ k. IsTold setting.now x.now (expr_of expr.now) k) }
{
    let from = declared(setting);
    let found = guess(&from, &x.spans, &x.config, expr)?;
    zero_allowed(setting, found.zero)?;
    Ok(found.known)
}

/// A set with all worlds of another at which an expression has that truth. `Unknown` where a number
/// is too great.
fn narrowed(setting: &Setting<'_>, x: &Around, expr: &Expr, truth: bool) -> Result<Around, Lack>
    ensures { IfOk result (λ y. IsNarrowed setting.now x.now (expr_of expr.now) truth y) }
{
    let from = declared(setting);
    let mut spans = copied(&from, &x.spans)?;
    narrow(&from, &mut spans, expr, truth)?;
    let config = x.config.copied(setting.alloc)?;
    Ok(Around { config, spans })
}

/// The set in which a datum has that span. Where the span isn't inside the one in which the datum
/// always is, the answer is `Beyond`. `Unknown` where the datum isn't declared or has no span.
fn stored(setting: &Setting<'_>, x: Around, datum: u32, span: Span) -> Result<Around, Lack>
    ensures { IfOk result (λ y. IsPut setting.now x datum span y) }
{
    let always = look(&setting.cert.always, datum)?;
    if !span.is_inside(always) {
        return Err(Lack::Beyond(datum, span));
    }
    if datum as usize >= setting.chart.names().vars.items().len() {
        return Err(Lack::Unknown);
    }
    let Around { config, spans } = x;
    let mut changed = spans;
    put(&mut changed, datum, span)?;
    Ok(Around {
        config,
        spans: changed,
    })
}

/// Whether a datum may overflow, by the certificate. One of which it says nothing may not.
fn may_overflow(setting: &Setting<'_>, datum: u32) -> bool
    ensures { result ≡ slice_index_or (cert_in setting.now).over.items datum false }
{
    match setting.cert.over.get(datum as usize) {
        None => false,
        Some(over) => *over,
    }
}

/// A datum takes a number of a span, whose mantissas have `frac` bits after the point: adds the set
/// in which it does to a list.
fn numbered(
    setting: &Setting<'_>,
    outs: Vec<Around>,
    x: &Around,
    datum: u32,
    expr: &Expr,
    span: Span,
    frac: u32,
) -> Result<Vec<Around>, Lack>
    ensures { IfOk result (λ ys. Takes setting.now x.now datum (expr_of expr.now)
        (knowns.Number span frac)
        outs.items ys.items) }
{
    // Only the contract reads the expression.
    let _ = expr;
    let from = declared(setting);
    let kept = kept_at(&from, datum, span, frac)?;
    overflow_allowed(setting, datum, kept.over)?;
    let same = again(setting, x)?;
    let next = stored(setting, same, datum, kept.span)?;
    let all = add(setting, outs, next)?;
    Ok(all)
}

/// A set once more: the same configuration and the same spans. It lacks at most memory.
pub fn again(setting: &Setting<'_>, x: &Around) -> Result<Around, Lack>
    ensures { IfOk result (λ y. (y.config ≡ x.now.config) × (y.spans.items ≡ x.now.spans.items)) }
{
    let spans = copied(&declared(setting), &x.spans)?;
    let config = x.config.copied(setting.alloc)?;
    Ok(Around { config, spans })
}

/// A datum takes the truth of an expression, where it may have it: adds to a list the set of the
/// worlds at which the expression has that truth, with the datum set to it.
fn flagged(
    setting: &Setting<'_>,
    outs: Vec<Around>,
    x: &Around,
    datum: u32,
    expr: &Expr,
    truth: bool,
    may: bool,
) -> Result<Vec<Around>, Lack>
    ensures { IfOk result (λ ys. Takes setting.now x.now datum (expr_of expr.now) (only truth may)
        outs.items ys.items) }
{
    if !may {
        return Ok(outs);
    }
    let part = narrowed(setting, x, expr, truth)?;
    let value = point(truth);
    let next = stored(setting, part, datum, value)?;
    let all = add(setting, outs, next)?;
    Ok(all)
}

/// A datum takes a value of an expression: adds sets for the values of which it is known that it
/// may have them. `Unknown` where nothing is known of it.
fn taken(
    setting: &Setting<'_>,
    outs: Vec<Around>,
    x: &Around,
    datum: u32,
    expr: &Expr,
    known: Known,
) -> Result<Vec<Around>, Lack>
    ensures { IfOk result (λ ys. Takes setting.now x.now datum (expr_of expr.now) known outs.items
        ys.items) }
{
    match known {
        Known::Nothing => Err(Lack::Unknown),
        Known::Number(span, frac) => {
            let all = numbered(setting, outs, x, datum, expr, span, frac)?;
            Ok(all)
        }
        Known::Truth(f, t) => {
            let both = flagged(setting, outs, x, datum, expr, false, f)?;
            let all = flagged(setting, both, x, datum, expr, true, t)?;
            Ok(all)
        }
    }
}

/// A datum takes the value of an expression, in each world of some sets: sets with all worlds after
/// that. What is known of a number is brought to the fraction of the datum and into its range, as
/// its mode says; of a flag that may have both truths two sets come, each with the data at which it
/// has that one. Answers: `Zero` and `Overflow` where such a fault may come and the certificate
/// doesn't say so, `Beyond` where the datum may leave the span in which it always is, `Unknown`
/// where nothing is known of the value, a number doesn't fit 128 bits, or the datum isn't declared.
pub fn assign(
    setting: &Setting<'_>,
    xs: Vec<Around>,
    datum: u32,
    expr: &Expr,
) -> Result<Vec<Around>, Lack>
    ensures { IfOk result (λ ys. Leads setting.now (Among setting.now xs.items)
        (λ b n depth. rules.assign datum (expr_of expr.now)) (λ _ w. Among setting.now ys.items w)) }
{
    let mut left = xs;
    let mut outs = Vec::new(setting.alloc);
    while let Some(x) = left.pop() {
        let known = told(setting, &x, expr)?;
        outs = taken(setting, outs, &x, datum, expr, known)?;
    }
    Ok(outs)
}

/// The sets in which a guard is true, and those in which it is false.
#[derive(Drop)]
pub struct Guarded {
    /// Where it is true.
    pub yes: Vec<Around>,
    /// Where it is false.
    pub no: Vec<Around>,
}

/// Adds to a list the worlds of a set at which a guard has that truth, where it may have it.
fn sided(
    setting: &Setting<'_>,
    outs: Vec<Around>,
    x: &Around,
    expr: &Expr,
    truth: bool,
    may: bool,
) -> Result<Vec<Around>, Lack>
    ensures { IfOk result (λ ys. Sides setting.now x.now (expr_of expr.now) truth may outs.items
        ys.items) }
{
    if !may {
        return Ok(outs);
    }
    let part = narrowed(setting, x, expr, truth)?;
    let all = add(setting, outs, part)?;
    Ok(all)
}

/// Evaluates a guard in each world of some sets: sets with all worlds in which it is true, and sets
/// with all in which it is false. A set whose spans don't decide it is in part in both. Answers:
/// `Zero` where a divisor may be 0 and the certificate doesn't say so, `Unknown` where a number
/// doesn't fit 128 bits or a datum that is read isn't declared.
pub fn guard(setting: &Setting<'_>, xs: Vec<Around>, expr: &Expr) -> Result<Guarded, Lack>
    ensures { IfOk result (λ r. Leads setting.now (Among setting.now xs.items)
        (λ b n depth. rules.guard_holds (Some (expr_of expr.now))) (guard_ends setting.now r)) }
{
    let mut left = xs;
    let mut yes = Vec::new(setting.alloc);
    let mut no = Vec::new(setting.alloc);
    while let Some(x) = left.pop() {
        let known = told(setting, &x, expr)?;
        let may = may_be(true, known);
        let may_not = may_be(false, known);
        yes = sided(setting, yes, &x, expr, true, may)?;
        no = sided(setting, no, &x, expr, false, may_not)?;
    }
    Ok(Guarded { yes, no })
}
