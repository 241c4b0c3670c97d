//! Processing active states.
ghost use Rattle.std.specs.Prelude.{◌≡◌, ◌++◌, ◌∷◌, [], IfOk};
ghost use Rattle.active_config.specs.Tree.{comp_of};
ghost use Rattle.checked_chart.specs.declared.parts.ListKind.TheVariants.{Outer};
ghost use Rattle.checked_chart.specs.Homes as homes;
ghost use Rattle.sos_rules.specs.Processing as rules;
ghost use Rattle.range_blocks.specs.Ends.{rules_in};
ghost use Rattle.range_worlds.specs.Leads.{Among, Leads, chart_in, now_at};
ghost use Rattle.range_check.specs.Went.{went_ends, process_found, Includes, TakesInner, TakesOuter};
ghost use Rattle.range_check.specs.Went.{FromChild, PassesOn, PutsTogether};

use actions::Event;
use active_config::Comp;
use checked_chart::{BlockKind, ListKind};
use range_blocks::{Firing, Life, Ran, Searched, block, one_less, search};
use range_moves::take;
use range_rules::Around;
use range_worlds::{Lack, Parted, Setting, Test, children, is_state, split, union};

/// A way out of a state: the home of a firing that led out of it, and where that ended.
#[derive(Drop)]
pub struct Way {
    /// The home.
    pub home: u32,
    /// Where it ended.
    pub worlds: Vec<Around>,
}

/// Where the processing of a state may end.
#[derive(Drop)]
pub struct Processed {
    /// Where no firing led out of it.
    pub stay: Vec<Around>,
    /// The ways out of it.
    pub outs: Vec<Way>,
}

/// Puts a way behind a list.
fn push_way(ways: Vec<Way>, way: Way) -> Result<Vec<Way>, Lack>
    ensures { IfOk result (λ all. all.items ≡ ways.items ++ way ∷ []) }
{
    let mut all = ways;
    match all.push(way) {
        Ok(()) => Ok(all),
        Err(_) => Err(Lack::Memory),
    }
}

/// Processing that leads out of no state.
fn stays(setting: &Setting<'_>, xs: Vec<Around>) -> Processed
    ensures { result.stay.items ≡ xs.items }
{
    Processed {
        stay: xs,
        outs: Vec::new(setting.alloc),
    }
}

/// Puts two lists of ways together.
fn all_ways(setting: &Setting<'_>, ways: Vec<Way>, more: Vec<Way>) -> Result<Vec<Way>, Lack>
    ensures { IfOk result (λ all. PutsTogether setting.now ways.items more.items all.items) }
{
    // Only the contract reads the setting.
    let _ = setting;
    let mut left = more;
    let mut all = ways;
    while let Some(way) = left.pop() {
        all = push_way(all, way)?;
    }
    Ok(all)
}

/// Where either of two processings may end.
fn both(setting: &Setting<'_>, a: Processed, b: Processed) -> Result<Processed, Lack>
    ensures first { IfOk result (λ r. Includes setting.now a r) }
    ensures second { IfOk result (λ r. Includes setting.now b r) }
{
    let Processed { stay, outs } = a;
    let Processed {
        stay: stay_too,
        outs: outs_too,
    } = b;
    let stay = union(setting, stay, stay_too)?;
    let outs = all_ways(setting, outs, outs_too)?;
    Ok(Processed { stay, outs })
}

/// Processes a state, in worlds in which it is active: its outer list first. Answers: those of
/// `search`, `block` and `take`, and `Unknown` where the number is that of no state or where more
/// than `deep` calls would be open.
#[cycle(processing)]
pub(crate) fn process(
    setting: &Setting<'_>,
    xs: Vec<Around>,
    state: u32,
    now: Event,
    deep: u32,
) -> Result<Processed, Lack>
    ensures { IfOk result (λ r. Leads setting.now (Among setting.now xs.items)
        (λ b n depth. (rules_in setting.now b n).process state (now_at now depth))
        (went_ends setting.now r)) }
{
    let room = one_less(deep)?;
    is_state(setting, state)?;
    let list = setting.chart.list(state, ListKind::Outer);
    let found = search(setting, xs, Life::On(state), list, now, room)?;
    let Searched {
        fires,
        dead,
        no,
        stop,
    } = found;
    let outs = take_outer(setting, fires, state, now, room)?;
    let left = union(setting, dead, no)?;
    let inner = go_on_inside(setting, left, state, now, room)?;
    let own = Processed { stay: stop, outs };
    let all = both(setting, own, inner)?;
    Ok(all)
}

/// Takes the firings of an outer list, each with its home: they lead out of the state.
fn take_outer(
    setting: &Setting<'_>,
    fires: Vec<Firing<'_>>,
    state: u32,
    now: Event,
    deep: u32,
) -> Result<Vec<Way>, Lack>
    ensures { IfOk result (λ ways. TakesOuter setting.now fires.entry.items state now ways.items) }
{
    let mut left = fires;
    match left.pop() {
        None => Ok(Vec::new(setting.alloc)),
        Some(firing) => {
            let Firing {
                target,
                actions,
                worlds,
            } = firing;
            let home = home_of(setting, state, target)?;
            let worlds = take(setting, worlds, home, target, &actions, now, deep)?;
            let others = take_outer(setting, left, state, now, deep)?;
            let ways = push_way(others, Way { home, worlds })?;
            Ok(ways)
        }
    }
}

/// The home of a firing of an outer list. `Unknown` where a number is that of no state.
fn home_of(setting: &Setting<'_>, state: u32, target: u32) -> Result<u32, Lack>
    ensures { IfOk result (λ h. h ≡ homes.home_of (chart_in setting.now).tree state Outer target) }
{
    is_state(setting, state)?;
    is_state(setting, target)?;
    Ok(setting.chart.home(state, ListKind::Outer, target))
}

/// Takes the firings of an inner list, with the state as their home.
fn take_inner(
    setting: &Setting<'_>,
    fires: Vec<Firing<'_>>,
    state: u32,
    now: Event,
    deep: u32,
) -> Result<Vec<Around>, Lack>
    ensures { IfOk result (λ ys. TakesInner setting.now fires.entry.items state now ys.items) }
{
    let mut left = fires;
    match left.pop() {
        None => Ok(Vec::new(setting.alloc)),
        Some(firing) => {
            let Firing {
                target,
                actions,
                worlds,
            } = firing;
            let own = take(setting, worlds, state, target, &actions, now, deep)?;
            let others = take_inner(setting, left, state, now, deep)?;
            let all = union(setting, own, others)?;
            Ok(all)
        }
    }
}

/// Runs the during action of a state, and where that wasn't cut, searches its inner list, and
/// processes its children where that finds nothing.
#[cycle(processing)]
fn go_on_inside(
    setting: &Setting<'_>,
    xs: Vec<Around>,
    state: u32,
    now: Event,
    deep: u32,
) -> Result<Processed, Lack>
    ensures { IfOk result (λ r. Leads setting.now (Among setting.now xs.items)
        (λ b n depth. rules.go_on_inside (chart_in setting.now) (rules_in setting.now b n) state
        (now_at now depth)) (went_ends setting.now r)) }
{
    is_state(setting, state)?;
    let action = setting.chart.block(state, BlockKind::During);
    let ran = block(setting, xs, Life::On(state), action, now)?;
    let Ran { done, cut } = ran;
    let list = setting.chart.list(state, ListKind::Inner);
    let found = search(setting, done, Life::On(state), list, now, deep)?;
    let Searched {
        fires,
        dead,
        no,
        stop,
    } = found;
    let taken = take_inner(setting, fires, state, now, deep)?;
    let left = union(setting, dead, no)?;
    let inner = process_children(setting, left, state, now, deep)?;
    let early = union(setting, cut, stop)?;
    let own = union(setting, taken, early)?;
    let kept = stays(setting, own);
    let all = both(setting, kept, inner)?;
    Ok(all)
}

/// Processes the children of a state: of an OR the active one, of an AND each in order.
#[cycle(processing)]
fn process_children(
    setting: &Setting<'_>,
    xs: Vec<Around>,
    state: u32,
    now: Event,
    deep: u32,
) -> Result<Processed, Lack>
    ensures { IfOk result (λ r. Leads setting.now (Among setting.now xs.items)
        (λ b n depth. rules.process_children (chart_in setting.now) (rules_in setting.now b n) state
        (now_at now depth) (comp_of (chart_in setting.now).tree state)) (went_ends setting.now r)) }
{
    is_state(setting, state)?;
    match setting.chart.comp(state) {
        Comp::Leaf => Ok(stays(setting, xs)),
        Comp::Or => {
            let inner = children(setting, state)?;
            let all = process_first(setting, xs, state, &inner, now, deep)?;
            Ok(all)
        }
        Comp::And => {
            let regions = children(setting, state)?;
            let all = process_each(setting, xs, &regions, now, deep)?;
            Ok(all)
        }
    }
}

/// Processes the first active state of a list, if there is one, as the child of `state`.
#[cycle(processing)]
fn process_first(
    setting: &Setting<'_>,
    xs: Vec<Around>,
    state: u32,
    states: &[u32],
    now: Event,
    deep: u32,
) -> Result<Processed, Lack>
    ensures { IfOk result (λ r. Leads setting.now (Among setting.now xs.items)
        (λ b n depth. process_found (rules_in setting.now b n) state states.now (now_at now depth))
        (went_ends setting.now r)) }
{
    match states.split_first() {
        None => Ok(stays(setting, xs)),
        Some((first, rest)) => {
            let room = one_less(deep)?;
            let parts = split(setting, xs, Test::On(*first))?;
            let Parted { yes, no } = parts;
            let inner = process(setting, yes, *first, now, room)?;
            let own = from_child(setting, inner, state)?;
            let others = process_first(setting, no, state, rest, now, room)?;
            let all = both(setting, own, others)?;
            Ok(all)
        }
    }
}

/// Where an OR stays though its child was left: where the home of the firing is the OR.
fn from_child(setting: &Setting<'_>, inner: Processed, state: u32) -> Result<Processed, Lack>
    ensures { IfOk result (λ r. FromChild setting.now state inner r) }
{
    let Processed { stay, outs } = inner;
    let mut left = outs;
    let mut all = stays(setting, stay);
    while let Some(way) = left.pop() {
        all = passed_on(setting, all, way, state)?;
    }
    Ok(all)
}

/// Puts a way out of a child of an OR to where the OR stays, or to the ways out of it.
fn passed_on(setting: &Setting<'_>, all: Processed, way: Way, state: u32) -> Result<Processed, Lack>
    ensures { IfOk result (λ r. PassesOn setting.now state way all r) }
{
    let Processed { stay, outs } = all;
    if way.home == state {
        let Way { home: _, worlds } = way;
        let stay = union(setting, stay, worlds)?;
        Ok(Processed { stay, outs })
    } else {
        let outs = push_way(outs, way)?;
        Ok(Processed { stay, outs })
    }
}

/// Processes regions in order, each where it is active when its turn comes.
#[cycle(processing)]
fn process_each(
    setting: &Setting<'_>,
    xs: Vec<Around>,
    states: &[u32],
    now: Event,
    deep: u32,
) -> Result<Processed, Lack>
    ensures { IfOk result (λ r. Leads setting.now (Among setting.now xs.items)
        (λ b n depth. (rules_in setting.now b n).process_each states.now (now_at now depth))
        (went_ends setting.now r)) }
{
    match states.split_first() {
        None => Ok(stays(setting, xs)),
        Some((first, rest)) => {
            let room = one_less(deep)?;
            let parts = split(setting, xs, Test::On(*first))?;
            let Parted { yes, no } = parts;
            let inner = process(setting, yes, *first, now, room)?;
            let Processed { stay, outs } = inner;
            let left = union(setting, no, stay)?;
            let others = process_each(setting, left, rest, now, room)?;
            let Processed { stay, outs: more } = others;
            let outs = all_ways(setting, outs, more)?;
            Ok(Processed { stay, outs })
        }
    }
}
