//! Entering a child of an OR by default.
ghost use Rattle.sos_rules.specs.Moves as moves;
ghost use Rattle.sos_interpreter.specs.Charts.{IsState, FitsChart};
ghost use Rattle.sos_interpreter.specs.Gives.{Gives};
ghost use Rattle.sos_interpreter.specs.Views.{chart_in, rules_in, now_of};

use crate::blocks::{End, Now};
use crate::entries::{enter, enter_child};
use crate::firings::play;
use crate::searches::{Found, search};
use crate::setting::Setting;
use crate::world::{Life, LiveWorld};
use actions::Halt;
use checked_chart::ListKind;

/// Enters a remembered child by default; where there is none, the default list decides.
#[cycle(rules)]
pub(crate) fn defaults(
    setting: &Setting<'_>,
    world: &mut LiveWorld,
    state: u32,
    now: Now,
) -> Result<(), Halt>
    requires fits { FitsChart (chart_in setting.now) world.old }
    requires state { IsState (chart_in setting.now) state }
    ensures gives { Gives (λ _. tt)
        (λ n. (rules_in setting.now n).defaults state (now_of now) world.old)
        result world.new }
    ensures fits { FitsChart (chart_in setting.now) world.new }
{
    match world.remembered(setting.chart, state) {
        Some(child) => enter(setting, world, child, child, now),
        None => default_search(setting, world, state, now),
    }
}

/// Searches the default list of a state, and enters what it finds.
#[cycle(rules)]
fn default_search(
    setting: &Setting<'_>,
    world: &mut LiveWorld,
    state: u32,
    now: Now,
) -> Result<(), Halt>
    requires fits { FitsChart (chart_in setting.now) world.old }
    requires state { IsState (chart_in setting.now) state }
    ensures gives { Gives (λ _. tt)
        (λ n. moves.default_search (chart_in setting.now) (rules_in setting.now n) state
        (now_of now) world.old)
        result world.new }
    ensures fits { FitsChart (chart_in setting.now) world.new }
{
    match search(
        setting,
        world,
        Life::Bare(state),
        setting.chart.list(state, ListKind::Default),
        now,
    )? {
        Found::Fire(target, actions) => match play(setting, world, state, &actions, now)? {
            End::Cut => Ok(()),
            End::Done => enter_child(setting, world, state, target, now),
        },
        Found::DeadEnd => Ok(()),
        Found::No => Ok(()),
        Found::Stop => Ok(()),
    }
}
