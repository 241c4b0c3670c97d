//! Where runs begin, and what is between two events.
ghost use Rattle.std.specs.Prelude.{◌≡◌, ◌++◌, ◌∷◌, [], IfOk};
ghost use Rattle.std.specs.Bool.{OnTrue};
ghost use Rattle.range_rules.specs.Worlds.{always_of};
ghost use Rattle.range_spans.specs.Boxes.{CoversInputs, box_of};
ghost use Rattle.range_worlds.specs.Leads.{chart_in, cert_in};
ghost use Rattle.range_check.specs.Places.{IsCovered, IsFirstSpan, AreFirst, IsFirst, Frees, widened_box};

use actions::{Var, VarKind};
use range_rules::Around;
use range_spans::{Config, Span, all_of, look, put};
use range_worlds::{Lack, Setting, again};

/// Whether each value of a datum, where it is an input, is in the span in which it always is.
fn is_covered(setting: &Setting<'_>, var: &Var, datum: u32) -> bool
    ensures { OnTrue result (IsCovered setting.now var.now datum) }
{
    match var.kind {
        VarKind::Output | VarKind::Local => true,
        VarKind::Input => match look(&setting.cert.always, datum) {
            Err(_) => false,
            Ok(span) => all_of(var.sort).is_inside(span),
        },
    }
}

/// Whether each value of an input is in the span in which the input always is.
pub(crate) fn covers_inputs(setting: &Setting<'_>) -> bool
    ensures { OnTrue result (CoversInputs (chart_in setting.now).names
        (always_of (cert_in setting.now))) }
{
    let vars = setting.chart.names().vars.items();
    for (number, var) in vars.iter().enumerate() {
        if !is_covered(setting, var, number as u32) {
            return false;
        }
    }
    true
}

/// The span of a datum at the start, of one value. `Beyond` where it isn't inside the span in which
/// the datum always is, `Unknown` where there is none of these.
fn first_span(setting: &Setting<'_>, var: &Var, datum: u32) -> Result<Span, Lack>
    ensures { IfOk result (λ span. IsFirstSpan setting.now var.now datum span) }
{
    let always = look(&setting.cert.always, datum)?;
    let own = Span {
        low: var.init,
        high: var.init,
    };
    if own.is_inside(always) {
        Ok(own)
    } else {
        Err(Lack::Beyond(datum, own))
    }
}

/// Puts a span behind a list.
fn push_span(spans: Vec<Span>, span: Span) -> Result<Vec<Span>, Lack>
    ensures { IfOk result (λ all. all.items ≡ spans.items ++ span ∷ []) }
{
    let mut all = spans;
    match all.push(span) {
        Ok(()) => Ok(all),
        Err(_) => Err(Lack::Memory),
    }
}

/// The spans of the data at the start. `Beyond` where one isn't inside the span in which its datum
/// always is, `Unknown` where there are more or fewer of these than data.
fn first_spans(setting: &Setting<'_>) -> Result<Vec<Span>, Lack>
    ensures { IfOk result (λ spans. AreFirst setting.now spans.items) }
{
    let vars = setting.chart.names().vars.items();
    if setting.cert.always.len() != vars.len() {
        return Err(Lack::Unknown);
    }
    let mut spans = Vec::new(setting.alloc);
    for (number, var) in vars.iter().enumerate() {
        let own = first_span(setting, var, number as u32)?;
        spans = push_span(spans, own)?;
    }
    Ok(spans)
}

/// A set with the world before the start. Answers: those of `first_spans`.
pub(crate) fn first(setting: &Setting<'_>) -> Result<Around, Lack>
    ensures { IfOk result (λ x. IsFirst setting.now x) }
{
    let spans = first_spans(setting)?;
    let config = Config::none(setting.alloc, setting.chart.shape())?;
    Ok(Around { config, spans })
}

/// Gives a datum, where it is an input, the span in which it always is. `Unknown` where there is
/// none.
fn widened(
    setting: &Setting<'_>,
    spans: Vec<Span>,
    var: &Var,
    datum: u32,
) -> Result<Vec<Span>, Lack>
    ensures { IfOk result (λ wide. box_of wide.items
        ≡ widened_box setting.now var.now.kind datum (box_of spans.items)) }
{
    match var.kind {
        VarKind::Output | VarKind::Local => Ok(spans),
        VarKind::Input => {
            let always = look(&setting.cert.always, datum)?;
            let mut wide = spans;
            put(&mut wide, datum, always)?;
            Ok(wide)
        }
    }
}

/// The set of the worlds of another in which inputs have any values. `Unknown` where an input has
/// no span.
pub fn freed(setting: &Setting<'_>, x: &Around) -> Result<Around, Lack>
    ensures { IfOk result (λ y. Frees setting.now x.now y) }
{
    let same = again(setting, x)?;
    let Around { config, spans } = same;
    let mut wide = spans;
    let vars = setting.chart.names().vars.items();
    for (number, var) in vars.iter().enumerate() {
        wide = widened(setting, wide, var, number as u32)?;
    }
    Ok(Around {
        config,
        spans: wide,
    })
}
