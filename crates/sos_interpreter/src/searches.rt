//! The search of a list of transitions, and what it finds.
ghost use Rattle.std.specs.Prelude.{◌≡◌, ◌≢◌, Err, ◌++◌, ◌∷◌, [], map, IfOk, IfErr, OnOk};
ghost use Rattle.actions.specs.declared.engine.Halt.TheVariants as halts;
ghost use Rattle.checked_chart.specs.Kept.{chart_of};
ghost use Rattle.checked_chart.specs.Valid.{IsTrans, AreTrans};
ghost use Rattle.checked_chart.specs.Views.{block_seen, list_seen, trans_seen};
ghost use Rattle.sos_rules.specs.Finds.{IsFound};
ghost use Rattle.sos_rules.specs.Searches as searches;
ghost use Rattle.sos_interpreter.specs.Charts.{IsLife, FitsChart};
ghost use Rattle.sos_interpreter.specs.Gives.{Does, Gives};
ghost use Rattle.sos_interpreter.specs.Views.{chart_in, rules_in, life_seen, now_of, found_of};

use crate::blocks::{End, Now, run_block};
use crate::setting::Setting;
use crate::world::{Life, LiveWorld};
use actions::{Event, Halt, Stmt};
use checked_chart::{Chart, Dest, Trans};
use std::alloc::Global;

/// What a search finds.
#[derive(Drop)]
pub enum Found<'a> {
    /// A destination, with the transition actions on the path.
    Fire(u32, Vec<&'a [Stmt]>),
    /// An empty junction.
    DeadEnd,
    /// Nothing was found.
    No,
    /// It was stopped by an early return.
    Stop,
}

/// A list to go back to: the rest of it, after a transition with this action that led to a
/// junction.
#[derive(Drop)]
struct Place<'a> {
    rest: &'a [Trans],
    action: &'a [Stmt],
}

/// Searches a list of transitions in order; a junction's list comes before the rest.
#[cycle(rules)]
pub(crate) fn search<'a>(
    setting: &Setting<'a>,
    world: &mut LiveWorld,
    life: Life,
    list: &'a [Trans],
    now: Now,
) -> Result<Found<'a>, Halt>
    requires fits { FitsChart (chart_in setting.now) world.old }
    requires life { IsLife (chart_in setting.now) (life_seen life) }
    requires list { AreTrans (chart_in setting.now) (list_seen list.now) }
    ensures gives { Gives (λ f. found_of f)
        (λ n. (rules_in setting.now n).search (life_seen life) (list_seen list.now)
        (now_of now) world.old)
        result world.new }
    ensures fits { FitsChart (chart_in setting.now) world.new }
    ensures found { IfOk result (λ f. IsFound (chart_in setting.now) (found_of f)) }
{
    let mut places: Vec<Place<'a>> = Vec::new(setting.alloc);
    let mut rest = list;
    loop {
        match rest.split_first() {
            None => match places.pop() {
                None => return Ok(Found::No),
                Some(place) => rest = place.rest,
            },
            Some((first, others)) => {
                if enabled(setting.chart, world, first, now)? {
                    match run_block(setting, world, life, first.cond.items(), now)? {
                        End::Cut => return Ok(Found::Stop),
                        End::Done => {}
                    }
                    match first.dest {
                        Dest::State(target) => {
                            let actions = actions_on(setting.alloc, &places, first.act.items())?;
                            return Ok(Found::Fire(target, actions));
                        }
                        Dest::Junction(junction) => {
                            world.pay(setting.chart, setting.bounds)?;
                            let next = setting.chart.junction(junction);
                            if next.is_empty() {
                                return Ok(Found::DeadEnd);
                            }
                            push_place(
                                &mut places,
                                Place {
                                    rest: others,
                                    action: first.act.items(),
                                },
                            )?;
                            rest = next;
                        }
                    }
                } else {
                    rest = others;
                }
            }
        }
    }
}

/// Whether a transition's event is the current one, and its guard holds.
fn enabled(chart: &Chart, world: &LiveWorld, transition: &Trans, now: Now) -> Result<bool, Halt>
    requires fits { FitsChart (chart_of chart.now) world.now }
    requires trans { IsTrans (chart_of chart.now) (trans_seen transition.now) }
    ensures does { Does (λ b. b)
        (searches.is_enabled (trans_seen transition.now) (now_of now) world.now) result world.now }
    ensures memory { result ≢ Err halts.Memory }
{
    if !event_fits(transition.event, now.event) {
        return Ok(false);
    }
    match &transition.guard {
        None => Ok(true),
        Some(guard) => world.is_true(chart, guard),
    }
}

/// Whether a trigger is the event.
fn event_fits(trigger: Option<u32>, event: Event) -> bool
    ensures { result ≡ searches.event_fits trigger event }
{
    match trigger {
        None => true,
        Some(wanted) => match event {
            Event::Start => false,
            Event::Tick => false,
            Event::Named(number) => number == wanted,
        },
    }
}

/// Keeps a list to go back to.
fn push_place<'a>(places: &mut Vec<Place<'a>>, place: Place<'a>) -> Result<(), Halt>
    ensures ok { OnOk result (places.new.items ≡ places.entry.now.items ++ place.entry ∷ []) }
    ensures err { IfErr result (λ h. h ≡ halts.Memory) }
{
    match places.push(place) {
        Ok(()) => Ok(()),
        Err(_) => Err(Halt::Memory),
    }
}

/// The actions of the lists to go back to, and last this one.
fn actions_on<'a>(
    alloc: Global,
    places: &[Place<'a>],
    last: &'a [Stmt],
) -> Result<Vec<&'a [Stmt]>, Halt>
    ensures ok { IfOk result (λ v. map (λ a. block_seen a.now) v.items
        ≡ map (λ p. block_seen p.action.now) places.entry.now ++ block_seen last.now ∷ []) }
    ensures err { IfErr result (λ h. h ≡ halts.Memory) }
{
    let mut actions: Vec<&'a [Stmt]> = Vec::new(alloc);
    for place in places.iter() {
        push_action(&mut actions, place.action)?;
    }
    push_action(&mut actions, last)?;
    Ok(actions)
}

/// Keeps an action.
fn push_action<'a>(actions: &mut Vec<&'a [Stmt]>, action: &'a [Stmt]) -> Result<(), Halt>
    ensures ok { OnOk result (actions.new.items ≡ actions.entry.now.items ++ action.entry ∷ []) }
    ensures err { IfErr result (λ h. h ≡ halts.Memory) }
{
    match actions.push(action) {
        Ok(()) => Ok(()),
        Err(_) => Err(Halt::Memory),
    }
}
