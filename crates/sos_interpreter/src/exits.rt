//! Leaving states.
ghost use Rattle.std.specs.Prelude.{reverse};
ghost use Rattle.active_config.specs.Tree.{comp_of, children_of};
ghost use Rattle.sos_rules.specs.Moves as moves;
ghost use Rattle.sos_interpreter.specs.Charts.{IsState, FitsChart};
ghost use Rattle.sos_interpreter.specs.Gives.{Gives};
ghost use Rattle.sos_interpreter.specs.Views.{chart_in, rules_in, now_of};

use crate::blocks::{End, Now, run_block};
use crate::setting::Setting;
use crate::world::{Life, LiveWorld};
use actions::Halt;
use active_config::Comp;
use checked_chart::BlockKind;

/// Leaves a state, its children first.
#[cycle(rules)]
fn exit(setting: &Setting<'_>, world: &mut LiveWorld, state: u32, now: Now) -> Result<(), Halt>
    requires fits { FitsChart (chart_in setting.now) world.old }
    requires state { IsState (chart_in setting.now) state }
    ensures gives { Gives (λ _. tt)
        (λ n. (rules_in setting.now n).exit state (now_of now) world.old)
        result world.new }
    ensures fits { FitsChart (chart_in setting.now) world.new }
{
    if !world.on(setting.chart, state) {
        return Ok(());
    }
    exit_children(setting, world, state, now)?;
    if !world.bare(setting.chart, state) {
        return Ok(());
    }
    match run_block(
        setting,
        world,
        Life::Bare(state),
        setting.chart.block(state, BlockKind::Exit),
        now,
    )? {
        End::Cut => Ok(()),
        End::Done => {
            if world.bare(setting.chart, state) {
                world.clear(setting.chart, state);
            }
            Ok(())
        }
    }
}

/// Leaves an AND's children in reverse order, and of an OR the active one.
#[cycle(rules)]
fn exit_children(
    setting: &Setting<'_>,
    world: &mut LiveWorld,
    state: u32,
    now: Now,
) -> Result<(), Halt>
    requires fits { FitsChart (chart_in setting.now) world.old }
    requires state { IsState (chart_in setting.now) state }
    ensures gives { Gives (λ _. tt)
        (λ n. moves.exit_children (chart_in setting.now) (rules_in setting.now n) state
        (now_of now) (comp_of (chart_in setting.now).tree state) world.old)
        result world.new }
    ensures fits { FitsChart (chart_in setting.now) world.new }
{
    match setting.chart.comp(state) {
        Comp::Leaf => Ok(()),
        Comp::Or => exit_active(setting, world, state, now),
        Comp::And => exit_all(setting, world, state, now),
    }
}

/// Leaves the children, the last first.
#[cycle(rules)]
fn exit_all(setting: &Setting<'_>, world: &mut LiveWorld, state: u32, now: Now) -> Result<(), Halt>
    requires fits { FitsChart (chart_in setting.now) world.old }
    requires state { IsState (chart_in setting.now) state }
    ensures gives { Gives (λ _. tt)
        (λ n. (rules_in setting.now n).exit_each
        (reverse (children_of (chart_in setting.now).tree state))
        (now_of now) world.old)
        result world.new }
    ensures fits { FitsChart (chart_in setting.now) world.new }
{
    let mut next = setting.chart.last_child(state);
    while let Some(child) = next {
        exit(setting, world, child, now)?;
        next = setting.chart.prev_sibling(child);
    }
    Ok(())
}

/// Leaves the active child, if there is one.
#[cycle(rules)]
pub(crate) fn exit_active(
    setting: &Setting<'_>,
    world: &mut LiveWorld,
    state: u32,
    now: Now,
) -> Result<(), Halt>
    requires fits { FitsChart (chart_in setting.now) world.old }
    requires state { IsState (chart_in setting.now) state }
    ensures gives { Gives (λ _. tt)
        (λ n. moves.exit_active (chart_in setting.now) (rules_in setting.now n) state
        (now_of now) world.old)
        result world.new }
    ensures fits { FitsChart (chart_in setting.now) world.new }
{
    match world.active_child(setting.chart, state) {
        None => Ok(()),
        Some(child) => exit(setting, world, child, now),
    }
}
