//! What a list of transitions finds, from sets of worlds.
ghost use Rattle.std.specs.Prelude.{◌≡◌, ◌∷◌, [], map, IfOk, ◌++◌, ◌<◌};
ghost use Rattle.checked_chart.specs.Chart as charts;
ghost use Rattle.checked_chart.specs.Views.{block_seen, list_seen, trans_seen};
ghost use Rattle.actions.specs.Work.{give};
ghost use Rattle.sos_rules.specs.Parts.{Fire};
ghost use Rattle.sos_rules.specs.Searches as rules;
ghost use Rattle.range_worlds.specs.Leads.{Among, Leads, chart_in, now_at};
ghost use Rattle.range_worlds.specs.Steps.{guard_ends};
ghost use Rattle.range_blocks.specs.Ends.{life_of, rules_in};
ghost use Rattle.range_blocks.specs.Finds.{found_ends, to_dest, visit_alone};
ghost use Rattle.range_blocks.specs.Finds.{Includes, Gathers, Extends, Leaves, Passes};

use crate::blocks::{Ran, block};
use crate::life::Life;
use actions::{Event, Stmt};
use checked_chart::{Dest, Trans};
use range_rules::Around;
use range_worlds::{Guarded, Lack, Setting, guard, union, use_step};

/// A destination that a search may find.
#[derive(Drop)]
pub struct Firing<'a> {
    /// The destination.
    pub target: u32,
    /// The transition actions on the path to it.
    pub actions: Vec<&'a [Stmt]>,
    /// Where the search ends with it.
    pub worlds: Vec<Around>,
}

/// What a search may find, and where it ends so.
#[derive(Drop)]
pub struct Searched<'a> {
    /// The destinations.
    pub fires: Vec<Firing<'a>>,
    /// Where it ended at an empty junction.
    pub dead: Vec<Around>,
    /// Where nothing was found.
    pub no: Vec<Around>,
    /// Where it was stopped by an early return.
    pub stop: Vec<Around>,
}

/// One call less than may be open. Where none may be, the answer is `Unknown`.
pub fn one_less(deep: u32) -> Result<u32, Lack>
    ensures { IfOk result (λ room. room < deep) }
{
    if deep == 0 {
        return Err(Lack::Unknown);
    }
    Ok(deep - 1)
}

/// A search that finds nothing.
fn nothing<'a>(setting: &Setting<'a>, xs: Vec<Around>) -> Searched<'a>
    ensures { result.no.items ≡ xs.items }
{
    Searched {
        fires: Vec::new(setting.alloc),
        dead: Vec::new(setting.alloc),
        no: xs,
        stop: Vec::new(setting.alloc),
    }
}

/// Whether a trigger is the event.
fn event_fits(trigger: Option<u32>, event: Event) -> bool
    ensures { result ≡ rules.event_fits trigger event }
{
    match trigger {
        None => true,
        Some(wanted) => match event {
            Event::Start => false,
            Event::Tick => false,
            Event::Named(number) => number == wanted,
        },
    }
}

/// Where a transition is enabled: its event is the current one, and its guard is true.
fn enabled(
    setting: &Setting<'_>,
    xs: Vec<Around>,
    transition: &Trans,
    now: Event,
) -> Result<Guarded, Lack>
    ensures { IfOk result (λ r. Leads setting.now (Among setting.now xs.items)
        (λ b n depth. rules.is_enabled (trans_seen transition.now) (now_at now depth))
        (guard_ends setting.now r)) }
{
    if !event_fits(transition.event, now) {
        return Ok(Guarded {
            yes: Vec::new(setting.alloc),
            no: xs,
        });
    }
    match &transition.guard {
        None => Ok(Guarded {
            yes: xs,
            no: Vec::new(setting.alloc),
        }),
        Some(expr) => {
            let parts = guard(setting, xs, expr)?;
            Ok(parts)
        }
    }
}

/// Puts a firing behind a list.
fn push_firing<'a>(fires: Vec<Firing<'a>>, firing: Firing<'a>) -> Result<Vec<Firing<'a>>, Lack>
    ensures { IfOk result (λ all. all.items ≡ fires.entry.items ++ firing.entry ∷ []) }
{
    let mut all = fires;
    match all.push(firing) {
        Ok(()) => Ok(all),
        Err(_) => Err(Lack::Memory),
    }
}

/// An action, and behind it others.
fn before<'a>(
    setting: &Setting<'a>,
    action: &'a [Stmt],
    others: &[&'a [Stmt]],
) -> Result<Vec<&'a [Stmt]>, Lack>
    ensures { IfOk result (λ all. map (λ a. block_seen a.now) all.items
        ≡ block_seen action.now ∷ map (λ a. block_seen a.now) others.now) }
{
    let mut all = Vec::new(setting.alloc);
    match all.push(action) {
        Err(_) => Err(Lack::Memory),
        Ok(()) => match all.extend_from_slice(others) {
            Err(_) => Err(Lack::Memory),
            Ok(()) => Ok(all),
        },
    }
}

/// Puts firings to others, with an action before those of each.
fn extended<'a>(
    setting: &Setting<'a>,
    fires: Vec<Firing<'a>>,
    action: &'a [Stmt],
) -> Result<Vec<Firing<'a>>, Lack>
    ensures { IfOk result (λ all. Extends setting.now (block_seen action.now) fires.entry.items
        all.items) }
{
    let mut left = fires;
    let mut all = Vec::new(setting.alloc);
    while let Some(firing) = left.pop() {
        let Firing {
            target,
            actions,
            worlds,
        } = firing;
        let actions = before(setting, action, &actions)?;
        all = push_firing(
            all,
            Firing {
                target,
                actions,
                worlds,
            },
        )?;
    }
    Ok(all)
}

/// Puts two lists of firings together.
fn all_fires<'a>(
    setting: &Setting<'a>,
    fires: Vec<Firing<'a>>,
    more: Vec<Firing<'a>>,
) -> Result<Vec<Firing<'a>>, Lack>
    ensures { IfOk result (λ all. Gathers setting.now fires.entry.items more.entry.items
        all.items) }
{
    // Only the contract reads the setting.
    let _ = setting;
    let mut left = more;
    let mut all = fires;
    while let Some(firing) = left.pop() {
        all = push_firing(all, firing)?;
    }
    Ok(all)
}

/// What either of two searches may find.
fn both<'a>(setting: &Setting<'a>, a: Searched<'a>, b: Searched<'a>) -> Result<Searched<'a>, Lack>
    ensures first { IfOk result (λ r. Includes setting.now a.entry r) }
    ensures second { IfOk result (λ r. Includes setting.now b.entry r) }
{
    let Searched {
        fires,
        dead,
        no,
        stop,
    } = a;
    let Searched {
        fires: more,
        dead: dead_too,
        no: no_too,
        stop: stop_too,
    } = b;
    let fires = all_fires(setting, fires, more)?;
    let dead = union(setting, dead, dead_too)?;
    let no = union(setting, no, no_too)?;
    let stop = union(setting, stop, stop_too)?;
    Ok(Searched {
        fires,
        dead,
        no,
        stop,
    })
}

/// One destination that a transition leads to.
fn fired<'a>(
    setting: &Setting<'a>,
    xs: Vec<Around>,
    target: u32,
    action: &'a [Stmt],
) -> Result<Searched<'a>, Lack>
    ensures { IfOk result (λ r. Leads setting.now (Among setting.now xs.items)
        (λ b n depth. give (Fire target (block_seen action.now ∷ [])))
        (found_ends setting.now r)) }
{
    let none = Vec::new(setting.alloc);
    let actions = before(setting, action, &none)?;
    let firing = Firing {
        target,
        actions,
        worlds: xs,
    };
    let fires = push_firing(Vec::new(setting.alloc), firing)?;
    Ok(Searched {
        fires,
        dead: Vec::new(setting.alloc),
        no: Vec::new(setting.alloc),
        stop: Vec::new(setting.alloc),
    })
}

/// The transitions of a junction. `Unknown` where there is no junction of that number.
fn junction_list<'a>(setting: &Setting<'a>, junction: u32) -> Result<&'a [Trans], Lack>
    ensures { IfOk result (λ l. list_seen l.now ≡ charts.junction (chart_in setting.now) junction) }
{
    if junction >= setting.chart.junctions() {
        return Err(Lack::Unknown);
    }
    Ok(setting.chart.junction(junction))
}

/// Where the rest of a list is searched, and what was found before it.
#[derive(Drop)]
pub struct Onward<'a> {
    /// Where the rest is searched.
    pub left: Vec<Around>,
    /// What was found.
    pub found: Searched<'a>,
}

/// Goes on behind a transition: the rest of the list is searched where the transition isn't enabled
/// and where it leads to nothing. Where its condition action was cut the search stops.
fn passed<'a>(
    setting: &Setting<'a>,
    there: Searched<'a>,
    off: Vec<Around>,
    cut: Vec<Around>,
) -> Result<Onward<'a>, Lack>
    ensures { IfOk result (λ r. Passes setting.now there.entry off.items cut.items r) }
{
    let Searched {
        fires,
        dead,
        no,
        stop,
    } = there;
    let left = union(setting, off, no)?;
    let stop = union(setting, stop, cut)?;
    let found = Searched {
        fires,
        dead,
        no: Vec::new(setting.alloc),
        stop,
    };
    Ok(Onward { left, found })
}

/// A search that ends at an empty junction.
fn dead_end<'a>(setting: &Setting<'a>, xs: Vec<Around>) -> Searched<'a>
    ensures { result.dead.items ≡ xs.items }
{
    Searched {
        fires: Vec::new(setting.alloc),
        dead: xs,
        no: Vec::new(setting.alloc),
        stop: Vec::new(setting.alloc),
    }
}

/// What the search of the list of a junction finds, after a transition with that action that led to
/// it.
fn led<'a>(
    setting: &Setting<'a>,
    found: Searched<'a>,
    action: &'a [Stmt],
) -> Result<Searched<'a>, Lack>
    ensures { IfOk result (λ r. Leaves setting.now (block_seen action.now) found.entry r) }
{
    let Searched {
        fires,
        dead,
        no,
        stop,
    } = found;
    let fires = extended(setting, fires, action)?;
    Ok(Searched {
        fires,
        dead,
        no,
        stop,
    })
}

/// Searches the list of a junction, after a transition with that action that led to it.
#[cycle(searching)]
fn visit<'a>(
    setting: &Setting<'a>,
    xs: Vec<Around>,
    life: Life,
    action: &'a [Stmt],
    list: &'a [Trans],
    now: Event,
    deep: u32,
) -> Result<Searched<'a>, Lack>
    ensures { IfOk result (λ r. Leads setting.now (Among setting.now xs.items)
        (λ b n depth. visit_alone (rules_in setting.now b n) (life_of life) (block_seen action.now)
        (now_at now depth) (list_seen list.now)) (found_ends setting.now r)) }
{
    if list.is_empty() {
        return Ok(dead_end(setting, xs));
    }
    let found = search(setting, xs, life, list, now, deep)?;
    let all = led(setting, found, action)?;
    Ok(all)
}

/// Goes where a transition leads: to a state, or to a junction, whose list is searched.
#[cycle(searching)]
fn reached<'a>(
    setting: &Setting<'a>,
    xs: Vec<Around>,
    life: Life,
    transition: &'a Trans,
    now: Event,
    deep: u32,
) -> Result<Searched<'a>, Lack>
    ensures { IfOk result (λ r. Leads setting.now (Among setting.now xs.items)
        (λ b n depth. to_dest (chart_in setting.now) b (rules_in setting.now b n) (life_of life)
        (trans_seen transition.now).action (now_at now depth) transition.now.dest)
        (found_ends setting.now r)) }
{
    let action = transition.act.items();
    match transition.dest {
        Dest::State(target) => {
            let all = fired(setting, xs, target, action)?;
            Ok(all)
        }
        Dest::Junction(junction) => {
            let list = junction_list(setting, junction)?;
            let all = visit(setting, xs, life, action, list, now, deep)?;
            Ok(all)
        }
    }
}

/// Searches a list of transitions in order, from each world of some sets; a junction's list comes
/// before the rest. At most `deep` transitions may be looked at on one way through the lists, a way
/// around a cycle of junctions among them: else the answer is `Unknown`. Each of them is a step of the
/// check, and where none is left the answer is `GivenUp`. Other answers: those of `guard` and
/// `block`, and `Unknown` where there is no junction of a number.
#[cycle(searching)]
pub fn search<'a>(
    setting: &Setting<'a>,
    xs: Vec<Around>,
    life: Life,
    list: &'a [Trans],
    now: Event,
    deep: u32,
) -> Result<Searched<'a>, Lack>
    ensures { IfOk result (λ r. Leads setting.now (Among setting.now xs.items)
        (λ b n depth. (rules_in setting.now b n).search (life_of life) (list_seen list.now)
        (now_at now depth)) (found_ends setting.now r)) }
{
    if xs.is_empty() {
        return Ok(nothing(setting, xs));
    }
    match list.split_first() {
        None => Ok(nothing(setting, xs)),
        Some((first, rest)) => {
            let room = one_less(deep)?;
            use_step(setting)?;
            let sides = enabled(setting, xs, first, now)?;
            let Guarded { yes, no } = sides;
            let ran = block(setting, yes, life, first.cond.items(), now)?;
            let Ran { done, cut } = ran;
            let there = reached(setting, done, life, first, now, room)?;
            let onward = passed(setting, there, no, cut)?;
            let Onward { left, found } = onward;
            let others = search(setting, left, life, rest, now, room)?;
            let all = both(setting, found, others)?;
            Ok(all)
        }
    }
}
