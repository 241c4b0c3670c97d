//! Lists of sets of worlds.
ghost use Rattle.std.specs.Prelude.{◌≡◌, ◌++◌, ◌∷◌, [], IfOk};
ghost use Rattle.std.specs.Bool.{OnTrue};
ghost use Rattle.actions.specs.Work as work;
ghost use Rattle.actions.specs.World.{World};
ghost use Rattle.range_worlds.specs.Leads.{At, Among, Adds, Unites, Joins, Merges, Leads, chart_in};
ghost use Rattle.range_worlds.specs.Splits as spec;
ghost use Rattle.range_worlds.specs.Splits.{Splits, Sorts};

use crate::configs::{Change, Test, passes, turned};
use crate::setting::{Lack, Setting};
use actions::{Sort, VarKind};
use checked_chart::Chart;
use range_rules::Around;
use range_spans::{Span, join};

/// Whether some datum has no value in a set, since its span ends before it begins: then no world is
/// in it.
fn is_empty(setting: &Setting<'_>, x: &Around) -> bool
    ensures { OnTrue result ((w : World) → At setting.now x.now w → ⊥) }
{
    // Only the contract reads the setting.
    let _ = setting;
    for i in 0..x.spans.len() {
        if x.spans[i].high < x.spans[i].low {
            return true;
        }
    }
    false
}

/// Whether a flag that is no input has another span in each of two sets. Where a setting asks for it
/// such sets are kept apart. No contract depends on it: what holds of joined sets holds of sets that
/// are kept apart.
pub fn is_apart(chart: &Chart, a: &[Span], b: &[Span]) -> bool {
    let vars = chart.names().vars.items();
    for (i, var) in vars.iter().enumerate() {
        if var.sort == Sort::Flag
            && var.kind != VarKind::Input
            && i < a.len()
            && i < b.len()
            && a[i] != b[i]
        {
            return true;
        }
    }
    false
}

/// A set with all worlds of two sets of one configuration: the span of each datum is the least one
/// with both. `Unknown` where one of them has more spans than the other.
fn joined(setting: &Setting<'_>, x: Around, y: &Around) -> Result<Around, Lack>
    requires { x.config ≡ y.now.config }
    ensures { IfOk result (λ z. Joins setting.now x y.now z) }
{
    // Only the contract reads the setting.
    let _ = setting;
    let Around { config, spans } = x;
    let mut wider = spans;
    join(&mut wider, &y.spans)?;
    Ok(Around {
        config,
        spans: wider,
    })
}

/// Puts a set behind a list.
fn push(xs: Vec<Around>, x: Around) -> Result<Vec<Around>, Lack>
    ensures { IfOk result (λ ys. ys.items ≡ xs.items ++ x ∷ []) }
{
    let mut ys = xs;
    match ys.push(x) {
        Ok(()) => Ok(ys),
        Err(_) => Err(Lack::Memory),
    }
}

/// Whether two sets may be joined. They have one configuration then.
fn may_join(setting: &Setting<'_>, x: &Around, y: &Around) -> bool
    ensures { OnTrue result (x.now.config ≡ y.now.config) }
{
    x.config.same(&y.config) && !(setting.apart && is_apart(setting.chart, &x.spans, &y.spans))
}

/// A set at hand, and sets that aren't joined with it.
#[derive(Drop)]
pub struct Merge {
    /// The set at hand.
    pub own: Around,
    /// The others.
    pub others: Vec<Around>,
}

/// Joins a set with the one at hand, or puts it to the others.
fn merged(setting: &Setting<'_>, merge: Merge, y: Around) -> Result<Merge, Lack>
    ensures { IfOk result (λ r. Merges setting.now y merge r) }
{
    let Merge { own, others } = merge;
    if may_join(setting, &own, &y) {
        let own = joined(setting, own, &y)?;
        Ok(Merge { own, others })
    } else {
        let others = push(others, y)?;
        Ok(Merge { own, others })
    }
}

/// Puts a set into a list: one with all its worlds, and with all of those sets of the list that
/// have the same configuration and aren't kept apart, in place of these. A set without worlds
/// leaves the list as it was. The order of the list may change. `Unknown` where two sets that are
/// joined have spans for two numbers of data.
pub fn add(setting: &Setting<'_>, xs: Vec<Around>, x: Around) -> Result<Vec<Around>, Lack>
    ensures { IfOk result (λ ys. Adds setting.now x xs.items ys.items) }
{
    if is_empty(setting, &x) {
        return Ok(xs);
    }
    let mut left = xs;
    let mut merge = Merge {
        own: x,
        others: Vec::new(setting.alloc),
    };
    while let Some(y) = left.pop() {
        merge = merged(setting, merge, y)?;
    }
    let Merge { own, others } = merge;
    let all = push(others, own)?;
    Ok(all)
}

/// Puts two lists together: each set of the second is put into the first, as by `add`.
pub fn union(setting: &Setting<'_>, xs: Vec<Around>, ys: Vec<Around>) -> Result<Vec<Around>, Lack>
    ensures { IfOk result (λ both. Unites setting.now xs.items ys.items both.items) }
{
    let mut left = ys;
    let mut both = xs;
    while let Some(y) = left.pop() {
        both = add(setting, both, y)?;
    }
    Ok(both)
}

/// The sets of worlds that pass a test, and the others.
#[derive(Drop)]
pub struct Parted {
    /// Those that pass it.
    pub yes: Vec<Around>,
    /// The others.
    pub no: Vec<Around>,
}

/// Puts a set to those that pass a test, or to the others.
fn sorted(setting: &Setting<'_>, split: Parted, x: Around, passed: bool) -> Result<Parted, Lack>
    ensures { IfOk result (λ r. Sorts setting.now x passed split r) }
{
    let Parted { yes, no } = split;
    if passed {
        let yes = add(setting, yes, x)?;
        Ok(Parted { yes, no })
    } else {
        let no = add(setting, no, x)?;
        Ok(Parted { yes, no })
    }
}

/// Parts worlds by a test of what is active: all that pass it are in the first list, all others in
/// the second. `Unknown` where the test is of a number that is no state, but for `On`.
pub fn split(setting: &Setting<'_>, xs: Vec<Around>, test: Test) -> Result<Parted, Lack>
    ensures { IfOk result (λ r. Splits setting.now test xs.items r.yes.items r.no.items) }
{
    let mut left = xs;
    let mut parts = Parted {
        yes: Vec::new(setting.alloc),
        no: Vec::new(setting.alloc),
    };
    while let Some(x) = left.pop() {
        let passed = passes(setting, &x.config, test)?;
        parts = sorted(setting, parts, x, passed)?;
    }
    Ok(parts)
}

/// Changes what is active or remembered in each world of some sets: sets with all worlds after
/// that. `Unknown` where a number that is no state is entered.
pub fn changed(setting: &Setting<'_>, xs: Vec<Around>, change: Change) -> Result<Vec<Around>, Lack>
    ensures { IfOk result (λ ys. Leads setting.now (Among setting.now xs.items)
        (λ b n depth. work.change (spec.turn (chart_in setting.now) change))
        (λ _ w. Among setting.now ys.items w)) }
{
    let mut left = xs;
    let mut outs = Vec::new(setting.alloc);
    while let Some(x) = left.pop() {
        let Around { config, spans } = x;
        let config = turned(setting, config, change)?;
        outs = add(setting, outs, Around { config, spans })?;
    }
    Ok(outs)
}
