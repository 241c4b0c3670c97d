//! Leaving states.
ghost use Rattle.std.specs.Prelude.{false, IfOk, reverse};
ghost use Rattle.active_config.specs.Tree.{comp_of};
ghost use Rattle.actions.specs.Changes.{set_mark};
ghost use Rattle.actions.specs.Work.{change};
ghost use Rattle.sos_rules.specs.Moves as rules;
ghost use Rattle.range_blocks.specs.Ends.{rules_in};
ghost use Rattle.range_worlds.specs.Leads.{Among, Leads, chart_in, now_at};
ghost use Rattle.range_moves.specs.Moved.{leave_rule, exit_found};

use actions::Event;
use active_config::Comp;
use checked_chart::BlockKind;
use range_blocks::{Life, Ran, block, one_less};
use range_rules::Around;
use range_worlds::{
    Change, Lack, Parted, Setting, Test, changed, children, is_state, split, union,
};

/// Leaves a state in each world in which it is active: its children first, then the state itself.
/// Answers: those of `block`, and `Unknown` where the number is that of no state or where more than
/// `deep` calls would be open.
#[cycle(leaving)]
pub fn exit(
    setting: &Setting<'_>,
    xs: Vec<Around>,
    state: u32,
    now: Event,
    deep: u32,
) -> Result<Vec<Around>, Lack>
    ensures { IfOk result (λ ys. Leads setting.now (Among setting.now xs.items)
        (λ b n depth. (rules_in setting.now b n).exit state (now_at now depth))
        (λ _ w. Among setting.now ys.items w)) }
{
    let room = one_less(deep)?;
    let parts = split(setting, xs, Test::On(state))?;
    let Parted { yes, no } = parts;
    let inner = exit_children(setting, yes, state, now, room)?;
    let left = leave(setting, inner, state, now)?;
    let all = union(setting, left, no)?;
    Ok(all)
}

/// Leaves an AND's children in reverse order, and of an OR the active one.
#[cycle(leaving)]
fn exit_children(
    setting: &Setting<'_>,
    xs: Vec<Around>,
    state: u32,
    now: Event,
    deep: u32,
) -> Result<Vec<Around>, Lack>
    ensures { IfOk result (λ ys. Leads setting.now (Among setting.now xs.items)
        (λ b n depth. rules.exit_children (chart_in setting.now) (rules_in setting.now b n) state
        (now_at now depth) (comp_of (chart_in setting.now).tree state))
        (λ _ w. Among setting.now ys.items w)) }
{
    is_state(setting, state)?;
    match setting.chart.comp(state) {
        Comp::Leaf => Ok(xs),
        Comp::Or => {
            let ys = exit_active(setting, xs, state, now, deep)?;
            Ok(ys)
        }
        Comp::And => {
            let regions = children(setting, state)?;
            let ys = exit_each(setting, xs, regions, now, deep)?;
            Ok(ys)
        }
    }
}

/// Leaves the active child, if there is one.
#[cycle(leaving)]
pub(crate) fn exit_active(
    setting: &Setting<'_>,
    xs: Vec<Around>,
    state: u32,
    now: Event,
    deep: u32,
) -> Result<Vec<Around>, Lack>
    ensures { IfOk result (λ ys. Leads setting.now (Among setting.now xs.items)
        (λ b n depth. rules.exit_active (chart_in setting.now) (rules_in setting.now b n) state
        (now_at now depth)) (λ _ w. Among setting.now ys.items w)) }
{
    let inner = children(setting, state)?;
    let ys = exit_first(setting, xs, &inner, now, deep)?;
    Ok(ys)
}

/// Leaves the first active state of a list, if there is one.
#[cycle(leaving)]
fn exit_first(
    setting: &Setting<'_>,
    xs: Vec<Around>,
    states: &[u32],
    now: Event,
    deep: u32,
) -> Result<Vec<Around>, Lack>
    ensures { IfOk result (λ ys. Leads setting.now (Among setting.now xs.items)
        (λ b n depth. exit_found (rules_in setting.now b n) states.now (now_at now depth))
        (λ _ w. Among setting.now ys.items w)) }
{
    match states.split_first() {
        None => Ok(xs),
        Some((first, rest)) => {
            let room = one_less(deep)?;
            let parts = split(setting, xs, Test::On(*first))?;
            let Parted { yes, no } = parts;
            let left = exit(setting, yes, *first, now, room)?;
            let others = exit_first(setting, no, rest, now, room)?;
            let all = union(setting, left, others)?;
            Ok(all)
        }
    }
}

/// Leaves the states of a list, the last one first.
#[cycle(leaving)]
fn exit_each(
    setting: &Setting<'_>,
    xs: Vec<Around>,
    states: Vec<u32>,
    now: Event,
    deep: u32,
) -> Result<Vec<Around>, Lack>
    ensures { IfOk result (λ ys. Leads setting.now (Among setting.now xs.items)
        (λ b n depth. (rules_in setting.now b n).exit_each (reverse states.items)
        (now_at now depth)) (λ _ w. Among setting.now ys.items w)) }
{
    let mut left = states;
    match left.pop() {
        None => Ok(xs),
        Some(last) => {
            let room = one_less(deep)?;
            let ys = exit(setting, xs, last, now, room)?;
            let all = exit_each(setting, ys, left, now, room)?;
            Ok(all)
        }
    }
}

/// Leaves a state whose children are left: where it is bare its exit action runs, and where that
/// wasn't cut and the state is bare, it becomes inactive.
fn leave(
    setting: &Setting<'_>,
    xs: Vec<Around>,
    state: u32,
    now: Event,
) -> Result<Vec<Around>, Lack>
    ensures { IfOk result (λ ys. Leads setting.now (Among setting.now xs.items)
        (λ b n depth. leave_rule (chart_in setting.now) (rules_in setting.now b n) state
        (now_at now depth)) (λ _ w. Among setting.now ys.items w)) }
{
    is_state(setting, state)?;
    let parts = split(setting, xs, Test::Bare(state))?;
    let Parted { yes, no } = parts;
    let action = setting.chart.block(state, BlockKind::Exit);
    let ran = block(setting, yes, Life::Bare(state), action, now)?;
    let Ran { done, cut } = ran;
    let gone = inactive(setting, done, state)?;
    let early = union(setting, cut, no)?;
    let all = union(setting, gone, early)?;
    Ok(all)
}

/// Makes a state inactive where it is bare.
fn inactive(setting: &Setting<'_>, xs: Vec<Around>, state: u32) -> Result<Vec<Around>, Lack>
    ensures { IfOk result (λ ys. Leads setting.now (Among setting.now xs.items)
        (λ b n depth. rules.if_bare (chart_in setting.now).tree state
        (change (set_mark state false))) (λ _ w. Among setting.now ys.items w)) }
{
    let parts = split(setting, xs, Test::Bare(state))?;
    let Parted { yes, no } = parts;
    let gone = changed(setting, yes, Change::Clear(state))?;
    let all = union(setting, gone, no)?;
    Ok(all)
}
