//! Entering states.
ghost use Rattle.std.specs.Prelude.{◌≡◌, IfOk};
ghost use Rattle.active_config.specs.Tree.{comp_of};
ghost use Rattle.actions.specs.Work as work;
ghost use Rattle.checked_chart.specs.Chart.{may_return};
ghost use Rattle.checked_chart.specs.Homes as homes;
ghost use Rattle.sos_rules.specs.Moves as rules;
ghost use Rattle.range_blocks.specs.Ends.{rules_in};
ghost use Rattle.range_worlds.specs.Leads.{Among, Leads, chart_in, now_at};
ghost use Rattle.range_moves.specs.Moved.{Enters, return_found};

use actions::Event;
use active_config::Comp;
use checked_chart::{BlockKind, ListKind};
use range_blocks::{Firing, Life, Ran, Searched, block, one_less, play, search};
use range_rules::Around;
use range_worlds::{
    Change, Lack, Parted, Setting, Test, changed, children, is_state, split, union,
};

/// Enters a state on the path to `target`, in each world in which it can become active. Answers:
/// those of `block` and `search`, and `Unknown` where a number is that of no state or where more
/// than `deep` calls would be open.
#[cycle(entering)]
pub fn enter(
    setting: &Setting<'_>,
    xs: Vec<Around>,
    state: u32,
    target: u32,
    now: Event,
    deep: u32,
) -> Result<Vec<Around>, Lack>
    ensures { IfOk result (λ ys. Leads setting.now (Among setting.now xs.items)
        (λ b n depth. (rules_in setting.now b n).enter state target (now_at now depth))
        (λ _ w. Among setting.now ys.items w)) }
{
    let room = one_less(deep)?;
    is_state(setting, state)?;
    let parts = split(setting, xs, Test::CanMark(state))?;
    let Parted { yes, no } = parts;
    let active = changed(setting, yes, Change::Enter(state))?;
    let action = setting.chart.block(state, BlockKind::Entry);
    let ran = block(setting, active, Life::Bare(state), action, now)?;
    let Ran { done, cut } = ran;
    let inner = enter_inside(setting, done, state, target, now, room)?;
    let early = union(setting, cut, no)?;
    let all = union(setting, inner, early)?;
    Ok(all)
}

/// Enters what is inside a state that was entered.
#[cycle(entering)]
fn enter_inside(
    setting: &Setting<'_>,
    xs: Vec<Around>,
    state: u32,
    target: u32,
    now: Event,
    deep: u32,
) -> Result<Vec<Around>, Lack>
    ensures { IfOk result (λ ys. Leads setting.now (Among setting.now xs.items)
        (λ b n depth. rules.enter_inside (chart_in setting.now) (rules_in setting.now b n) state
        target (now_at now depth) (comp_of (chart_in setting.now).tree state))
        (λ _ w. Among setting.now ys.items w)) }
{
    is_state(setting, state)?;
    match setting.chart.comp(state) {
        Comp::Leaf => Ok(xs),
        Comp::Or => {
            let ys = enter_toward(setting, xs, state, target, now, deep)?;
            Ok(ys)
        }
        Comp::And => {
            let regions = children(setting, state)?;
            let ys = enter_each(setting, xs, &regions, target, now, deep)?;
            Ok(ys)
        }
    }
}

/// Enters regions in order, the one with `target` on the path to it, the others by default.
#[cycle(entering)]
fn enter_each(
    setting: &Setting<'_>,
    xs: Vec<Around>,
    states: &[u32],
    target: u32,
    now: Event,
    deep: u32,
) -> Result<Vec<Around>, Lack>
    ensures { IfOk result (λ ys. Leads setting.now (Among setting.now xs.items)
        (λ b n depth. (rules_in setting.now b n).enter_each states.now target (now_at now depth))
        (λ _ w. Among setting.now ys.items w)) }
{
    match states.split_first() {
        None => Ok(xs),
        Some((first, rest)) => {
            let room = one_less(deep)?;
            let inner = path_in(setting, *first, target)?;
            let ys = enter(setting, xs, *first, inner, now, room)?;
            let all = enter_each(setting, ys, rest, target, now, room)?;
            Ok(all)
        }
    }
}

/// Where a region is entered on the way to `target`. `Unknown` where a number is that of no state.
fn path_in(setting: &Setting<'_>, region: u32, target: u32) -> Result<u32, Lack>
    ensures { IfOk result (λ d. d ≡ homes.path_in (chart_in setting.now).tree region target) }
{
    is_state(setting, region)?;
    is_state(setting, target)?;
    Ok(setting.chart.path_in(region, target))
}

/// Enters by default where the path ends, else the child towards `target`.
#[cycle(entering)]
pub(crate) fn enter_toward(
    setting: &Setting<'_>,
    xs: Vec<Around>,
    state: u32,
    target: u32,
    now: Event,
    deep: u32,
) -> Result<Vec<Around>, Lack>
    ensures { IfOk result (λ ys. Leads setting.now (Among setting.now xs.items)
        (λ b n depth. rules.enter_toward (chart_in setting.now) (rules_in setting.now b n) state
        target (now_at now depth)) (λ _ w. Among setting.now ys.items w)) }
{
    if state == target {
        let ys = defaults(setting, xs, state, now, deep)?;
        return Ok(ys);
    }
    let ys = enter_child(setting, xs, state, target, now, deep)?;
    Ok(ys)
}

/// The child of a state towards `target`. `Unknown` where a number is that of no state.
fn child_toward(setting: &Setting<'_>, state: u32, target: u32) -> Result<Option<u32>, Lack>
    ensures { IfOk result (λ x. x ≡ homes.child_toward (chart_in setting.now).tree state target) }
{
    is_state(setting, state)?;
    is_state(setting, target)?;
    Ok(setting.chart.child_toward(state, target))
}

/// Enters the child towards `target`, if there is one.
#[cycle(entering)]
fn enter_child(
    setting: &Setting<'_>,
    xs: Vec<Around>,
    state: u32,
    target: u32,
    now: Event,
    deep: u32,
) -> Result<Vec<Around>, Lack>
    ensures { IfOk result (λ ys. Leads setting.now (Among setting.now xs.items)
        (λ b n depth. work.if_some (homes.child_toward (chart_in setting.now).tree state target)
        work.nothing (λ x. (rules_in setting.now b n).enter x target (now_at now depth)))
        (λ _ w. Among setting.now ys.items w)) }
{
    let child = child_toward(setting, state, target)?;
    match child {
        None => Ok(xs),
        Some(child) => {
            let room = one_less(deep)?;
            let ys = enter(setting, xs, child, target, now, room)?;
            Ok(ys)
        }
    }
}

/// The children that a state may enter again by history.
#[tactic(auto, unfolding(checked_chart::specs::Chart::may_return))]
fn may_return_to(setting: &Setting<'_>, state: u32) -> Result<Vec<u32>, Lack>
    ensures { IfOk result (λ xs. xs.items ≡ may_return (chart_in setting.now) state) }
{
    is_state(setting, state)?;
    if !setting.chart.has_history(state) {
        return Ok(Vec::new(setting.alloc));
    }
    let all = children(setting, state)?;
    Ok(all)
}

/// Enters a remembered child by default; where there is none, the default list decides.
#[cycle(entering)]
fn defaults(
    setting: &Setting<'_>,
    xs: Vec<Around>,
    state: u32,
    now: Event,
    deep: u32,
) -> Result<Vec<Around>, Lack>
    ensures { IfOk result (λ ys. Leads setting.now (Among setting.now xs.items)
        (λ b n depth. (rules_in setting.now b n).defaults state (now_at now depth))
        (λ _ w. Among setting.now ys.items w)) }
{
    let room = one_less(deep)?;
    let states = may_return_to(setting, state)?;
    let ys = return_first(setting, xs, &states, state, now, room)?;
    Ok(ys)
}

/// Enters the first state of a list that its parent remembers; where there is none, the default
/// list of `state` decides.
#[cycle(entering)]
fn return_first(
    setting: &Setting<'_>,
    xs: Vec<Around>,
    states: &[u32],
    state: u32,
    now: Event,
    deep: u32,
) -> Result<Vec<Around>, Lack>
    ensures { IfOk result (λ ys. Leads setting.now (Among setting.now xs.items)
        (λ b n depth. return_found (chart_in setting.now) (rules_in setting.now b n) state
        states.now (now_at now depth)) (λ _ w. Among setting.now ys.items w)) }
{
    match states.split_first() {
        None => {
            let ys = default_search(setting, xs, state, now, deep)?;
            Ok(ys)
        }
        Some((first, rest)) => {
            let room = one_less(deep)?;
            let parts = split(setting, xs, Test::Last(*first))?;
            let Parted { yes, no } = parts;
            let back = enter(setting, yes, *first, *first, now, room)?;
            let others = return_first(setting, no, rest, state, now, room)?;
            let all = union(setting, back, others)?;
            Ok(all)
        }
    }
}

/// Searches the default list of a state, and enters what it finds.
#[cycle(entering)]
fn default_search(
    setting: &Setting<'_>,
    xs: Vec<Around>,
    state: u32,
    now: Event,
    deep: u32,
) -> Result<Vec<Around>, Lack>
    ensures { IfOk result (λ ys. Leads setting.now (Among setting.now xs.items)
        (λ b n depth. rules.default_search (chart_in setting.now) (rules_in setting.now b n) state
        (now_at now depth)) (λ _ w. Among setting.now ys.items w)) }
{
    is_state(setting, state)?;
    let list = setting.chart.list(state, ListKind::Default);
    let found = search(setting, xs, Life::Bare(state), list, now, deep)?;
    let Searched {
        fires,
        dead,
        no,
        stop,
    } = found;
    let inner = enter_fires(setting, fires, state, now, deep)?;
    let none = union(setting, dead, no)?;
    let still = union(setting, none, stop)?;
    let all = union(setting, inner, still)?;
    Ok(all)
}

/// Takes the firings of a default list: their actions run, and where none was cut their
/// destinations are entered.
#[cycle(entering)]
fn enter_fires(
    setting: &Setting<'_>,
    fires: Vec<Firing<'_>>,
    state: u32,
    now: Event,
    deep: u32,
) -> Result<Vec<Around>, Lack>
    ensures { IfOk result (λ ys. Enters setting.now fires.entry.items state now ys.items) }
{
    let mut left = fires;
    match left.pop() {
        None => Ok(Vec::new(setting.alloc)),
        Some(firing) => {
            let room = one_less(deep)?;
            let Firing {
                target,
                actions,
                worlds,
            } = firing;
            let ran = play(setting, worlds, state, &actions, now)?;
            let Ran { done, cut } = ran;
            let inner = enter_child(setting, done, state, target, now, room)?;
            let own = union(setting, inner, cut)?;
            let others = enter_fires(setting, left, state, now, room)?;
            let all = union(setting, own, others)?;
            Ok(all)
        }
    }
}
