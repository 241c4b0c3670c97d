//! What a firing does: its actions run, and it is taken.
ghost use Rattle.std.specs.Prelude.{map};
ghost use Rattle.checked_chart.specs.Views.{block_seen};
ghost use Rattle.sos_rules.specs.Finds.{AreActions};
ghost use Rattle.sos_interpreter.specs.Charts.{IsState, FitsChart};
ghost use Rattle.sos_interpreter.specs.Gives.{Gives};
ghost use Rattle.sos_interpreter.specs.Views.{chart_in, rules_in, now_of, end_of};

use crate::blocks::{End, Now, run_block};
use crate::entries::enter_toward;
use crate::exits::exit_active;
use crate::setting::Setting;
use crate::world::{Life, LiveWorld};
use actions::{Halt, Stmt};

/// Runs the actions of a firing; each that isn't empty costs a step.
#[cycle(rules)]
pub(crate) fn play(
    setting: &Setting<'_>,
    world: &mut LiveWorld,
    state: u32,
    actions: &[&[Stmt]],
    now: Now,
) -> Result<End, Halt>
    requires fits { FitsChart (chart_in setting.now) world.old }
    requires state { IsState (chart_in setting.now) state }
    requires actions { AreActions (chart_in setting.now) (map (λ a. block_seen a.now) actions.now) }
    ensures gives { Gives (λ e. end_of e)
        (λ n. (rules_in setting.now n).play state
        (map (λ a. block_seen a.now) actions.now) (now_of now) world.old)
        result world.new }
    ensures fits { FitsChart (chart_in setting.now) world.new }
{
    for action in actions {
        if action.is_empty() {
            continue;
        }
        world.pay(setting.chart, setting.bounds)?;
        match run_block(setting, world, Life::Bare(state), action, now)? {
            End::Cut => return Ok(End::Cut),
            End::Done => {}
        }
    }
    Ok(End::Done)
}

/// Takes a firing with this home.
#[cycle(rules)]
pub(crate) fn take(
    setting: &Setting<'_>,
    world: &mut LiveWorld,
    state: u32,
    target: u32,
    actions: &[&[Stmt]],
    now: Now,
) -> Result<(), Halt>
    requires fits { FitsChart (chart_in setting.now) world.old }
    requires state { IsState (chart_in setting.now) state }
    requires to { IsState (chart_in setting.now) target }
    requires actions { AreActions (chart_in setting.now) (map (λ a. block_seen a.now) actions.now) }
    ensures gives { Gives (λ _. tt)
        (λ n. (rules_in setting.now n).take state target
        (map (λ a. block_seen a.now) actions.now) (now_of now) world.old)
        result world.new }
    ensures fits { FitsChart (chart_in setting.now) world.new }
{
    exit_active(setting, world, state, now)?;
    if !world.bare(setting.chart, state) {
        return Ok(());
    }
    match play(setting, world, state, actions, now)? {
        End::Cut => Ok(()),
        End::Done => {
            if !world.bare(setting.chart, state) {
                return Ok(());
            }
            enter_toward(setting, world, state, target, now)
        }
    }
}
