//! Entering states.
ghost use Rattle.active_config.specs.Tree.{comp_of, children_of};
ghost use Rattle.checked_chart.specs.Homes as homes;
ghost use Rattle.actions.specs.Work as work;
ghost use Rattle.sos_rules.specs.Moves as moves;
ghost use Rattle.sos_interpreter.specs.Charts.{IsState, FitsChart};
ghost use Rattle.sos_interpreter.specs.Gives.{Gives};
ghost use Rattle.sos_interpreter.specs.Views.{chart_in, rules_in, now_of};

use crate::blocks::{End, Now, run_block};
use crate::defaults::defaults;
use crate::setting::Setting;
use crate::world::{Life, LiveWorld};
use actions::Halt;
use active_config::Comp;
use checked_chart::BlockKind;

/// Enters a state, on the path to `target`.
#[cycle(rules)]
pub(crate) fn enter(
    setting: &Setting<'_>,
    world: &mut LiveWorld,
    state: u32,
    target: u32,
    now: Now,
) -> Result<(), Halt>
    requires fits { FitsChart (chart_in setting.now) world.old }
    requires state { IsState (chart_in setting.now) state }
    requires to { IsState (chart_in setting.now) target }
    ensures gives { Gives (λ _. tt)
        (λ n. (rules_in setting.now n).enter state target (now_of now) world.old)
        result world.new }
    ensures fits { FitsChart (chart_in setting.now) world.new }
{
    if !world.can_mark(setting.chart, state) {
        return Ok(());
    }
    world.enter(setting.chart, state);
    match run_block(
        setting,
        world,
        Life::Bare(state),
        setting.chart.block(state, BlockKind::Entry),
        now,
    )? {
        End::Cut => Ok(()),
        End::Done => enter_inside(setting, world, state, target, now),
    }
}

/// Enters what is inside a state that was entered.
#[cycle(rules)]
fn enter_inside(
    setting: &Setting<'_>,
    world: &mut LiveWorld,
    state: u32,
    target: u32,
    now: Now,
) -> Result<(), Halt>
    requires fits { FitsChart (chart_in setting.now) world.old }
    requires state { IsState (chart_in setting.now) state }
    requires to { IsState (chart_in setting.now) target }
    ensures gives { Gives (λ _. tt)
        (λ n. moves.enter_inside (chart_in setting.now) (rules_in setting.now n)
        state target (now_of now) (comp_of (chart_in setting.now).tree state) world.old)
        result world.new }
    ensures fits { FitsChart (chart_in setting.now) world.new }
{
    match setting.chart.comp(state) {
        Comp::Leaf => Ok(()),
        Comp::Or => enter_toward(setting, world, state, target, now),
        Comp::And => enter_all(setting, world, state, target, now),
    }
}

/// Enters the children in order.
#[cycle(rules)]
fn enter_all(
    setting: &Setting<'_>,
    world: &mut LiveWorld,
    state: u32,
    target: u32,
    now: Now,
) -> Result<(), Halt>
    requires fits { FitsChart (chart_in setting.now) world.old }
    requires state { IsState (chart_in setting.now) state }
    requires to { IsState (chart_in setting.now) target }
    ensures gives { Gives (λ _. tt)
        (λ n. (rules_in setting.now n).enter_each
        (children_of (chart_in setting.now).tree state) target (now_of now) world.old)
        result world.new }
    ensures fits { FitsChart (chart_in setting.now) world.new }
{
    let mut next = setting.chart.first_child(state);
    while let Some(child) = next {
        enter(
            setting,
            world,
            child,
            setting.chart.path_in(child, target),
            now,
        )?;
        next = setting.chart.next_sibling(child);
    }
    Ok(())
}

/// Enters by default where the path ends, else the child towards `target`.
#[cycle(rules)]
pub(crate) fn enter_toward(
    setting: &Setting<'_>,
    world: &mut LiveWorld,
    state: u32,
    target: u32,
    now: Now,
) -> Result<(), Halt>
    requires fits { FitsChart (chart_in setting.now) world.old }
    requires state { IsState (chart_in setting.now) state }
    requires to { IsState (chart_in setting.now) target }
    ensures gives { Gives (λ _. tt)
        (λ n. moves.enter_toward (chart_in setting.now) (rules_in setting.now n)
        state target (now_of now) world.old)
        result world.new }
    ensures fits { FitsChart (chart_in setting.now) world.new }
{
    if state == target {
        return defaults(setting, world, state, now);
    }
    enter_child(setting, world, state, target, now)
}

/// Enters the child towards `target`.
#[cycle(rules)]
pub(crate) fn enter_child(
    setting: &Setting<'_>,
    world: &mut LiveWorld,
    state: u32,
    target: u32,
    now: Now,
) -> Result<(), Halt>
    requires fits { FitsChart (chart_in setting.now) world.old }
    requires state { IsState (chart_in setting.now) state }
    requires to { IsState (chart_in setting.now) target }
    ensures gives { Gives (λ _. tt)
        (λ n. work.if_some (homes.child_toward (chart_in setting.now).tree state target)
        work.nothing (λ x. (rules_in setting.now n).enter x target (now_of now)) world.old)
        result world.new }
    ensures fits { FitsChart (chart_in setting.now) world.new }
{
    match setting.chart.child_toward(state, target) {
        None => Ok(()),
        Some(child) => enter(setting, world, child, target, now),
    }
}
