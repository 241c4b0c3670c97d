//! Processing an active state.
ghost use Rattle.std.specs.Prelude.{◌≡◌};
ghost use Rattle.active_config.specs.Tree.{comp_of, children_of};
ghost use Rattle.sos_rules.specs.Processing as processing;
ghost use Rattle.sos_interpreter.specs.Charts.{IsState, FitsChart};
ghost use Rattle.sos_interpreter.specs.Gives.{Gives};
ghost use Rattle.sos_interpreter.specs.Views.{chart_in, rules_in, now_of, went_of, went_from};

use crate::blocks::{End, Now, run_block};
use crate::firings::take;
use crate::searches::{Found, search};
use crate::setting::Setting;
use crate::world::{Life, LiveWorld};
use actions::Halt;
use active_config::Comp;
use checked_chart::{BlockKind, ListKind};

/// How processing ends.
#[derive(Clone, Copy)]
pub enum Went {
    /// The state stays.
    Stay,
    /// A firing with this home left the state.
    Out(u32),
}

/// Processes an active state.
#[cycle(rules)]
pub(crate) fn process(
    setting: &Setting<'_>,
    world: &mut LiveWorld,
    state: u32,
    now: Now,
) -> Result<Went, Halt>
    requires fits { FitsChart (chart_in setting.now) world.old }
    requires state { IsState (chart_in setting.now) state }
    ensures gives { Gives (λ r. went_of r)
        (λ n. (rules_in setting.now n).process state (now_of now) world.old)
        result world.new }
    ensures fits { FitsChart (chart_in setting.now) world.new }
{
    match search(
        setting,
        world,
        Life::On(state),
        setting.chart.list(state, ListKind::Outer),
        now,
    )? {
        Found::Fire(target, actions) => {
            let home = setting.chart.home(state, ListKind::Outer, target);
            take(setting, world, home, target, &actions, now)?;
            Ok(Went::Out(home))
        }
        Found::Stop => Ok(Went::Stay),
        Found::DeadEnd => go_on_inside(setting, world, state, now),
        Found::No => go_on_inside(setting, world, state, now),
    }
}

/// Runs the during action, then takes an inner transition or processes the children.
#[cycle(rules)]
fn go_on_inside(
    setting: &Setting<'_>,
    world: &mut LiveWorld,
    state: u32,
    now: Now,
) -> Result<Went, Halt>
    requires fits { FitsChart (chart_in setting.now) world.old }
    requires state { IsState (chart_in setting.now) state }
    ensures gives { Gives (λ r. went_of r)
        (λ n. processing.go_on_inside (chart_in setting.now) (rules_in setting.now n)
        state (now_of now) world.old)
        result world.new }
    ensures fits { FitsChart (chart_in setting.now) world.new }
{
    match run_block(
        setting,
        world,
        Life::On(state),
        setting.chart.block(state, BlockKind::During),
        now,
    )? {
        End::Cut => Ok(Went::Stay),
        End::Done => match search(
            setting,
            world,
            Life::On(state),
            setting.chart.list(state, ListKind::Inner),
            now,
        )? {
            Found::Fire(target, actions) => {
                take(setting, world, state, target, &actions, now)?;
                Ok(Went::Stay)
            }
            Found::Stop => Ok(Went::Stay),
            Found::DeadEnd => process_children(setting, world, state, now),
            Found::No => process_children(setting, world, state, now),
        },
    }
}

/// Processes what is active inside a state.
#[cycle(rules)]
fn process_children(
    setting: &Setting<'_>,
    world: &mut LiveWorld,
    state: u32,
    now: Now,
) -> Result<Went, Halt>
    requires fits { FitsChart (chart_in setting.now) world.old }
    requires state { IsState (chart_in setting.now) state }
    ensures gives { Gives (λ r. went_of r)
        (λ n. processing.process_children (chart_in setting.now) (rules_in setting.now n)
        state (now_of now) (comp_of (chart_in setting.now).tree state) world.old)
        result world.new }
    ensures fits { FitsChart (chart_in setting.now) world.new }
{
    match setting.chart.comp(state) {
        Comp::Leaf => Ok(Went::Stay),
        Comp::Or => match world.active_child(setting.chart, state) {
            None => Ok(Went::Stay),
            Some(child) => match process(setting, world, child, now)? {
                Went::Stay => Ok(Went::Stay),
                Went::Out(home) => Ok(out_of(state, home)),
            },
        },
        Comp::And => process_all(setting, world, state, now),
    }
}

/// How processing of an OR ends where a firing left its child: one whose home is the OR ends there.
fn out_of(state: u32, home: u32) -> Went
    ensures { went_of result ≡ went_from state home }
{
    if home == state {
        Went::Stay
    } else {
        Went::Out(home)
    }
}

/// Processes the regions, each that is active when its turn comes.
#[cycle(rules)]
fn process_all(
    setting: &Setting<'_>,
    world: &mut LiveWorld,
    state: u32,
    now: Now,
) -> Result<Went, Halt>
    requires fits { FitsChart (chart_in setting.now) world.old }
    requires state { IsState (chart_in setting.now) state }
    ensures gives { Gives (λ r. went_of r)
        (λ n. (rules_in setting.now n).process_each
        (children_of (chart_in setting.now).tree state) (now_of now) world.old)
        result world.new }
    ensures fits { FitsChart (chart_in setting.now) world.new }
{
    let mut next = setting.chart.first_child(state);
    while let Some(child) = next {
        next = setting.chart.next_sibling(child);
        if !world.on(setting.chart, child) {
            continue;
        }
        match process(setting, world, child, now)? {
            Went::Stay => {}
            Went::Out(home) => return Ok(Went::Out(home)),
        }
    }
    Ok(Went::Stay)
}
