//! The junctions that are reached from a list, in the order in which they are first met.
ghost use Rattle.std.specs.Prelude.{◌≡◌, ◌<◌, ◌≤◌, ◌^◌, OnOk, IfOk, length};
ghost use Rattle.std.specs.List.{AllByRecursion};
ghost use Rattle.flow_base.specs.Lists.{items_of};
ghost use Rattle.checked_chart.specs.Chart.{junction_count};
ghost use Rattle.checked_chart.specs.Kept.{chart_of};
ghost use Rattle.checked_chart.specs.Valid.{AreTrans};
ghost use Rattle.checked_chart.specs.Views.{list_seen};
ghost use Rattle.chart_code.specs.ReachedJunctions as spec;

use checked_chart::{Chart, Dest, Trans};
use flow_base::{List, Memory};
use std::alloc::Global;

/// Whether a number is in a list.
#[tactic(auto, unfolding(chart_code::specs::ReachedJunctions::has))]
fn has(list: &[u32], number: u32) -> bool
    ensures { result ≡ spec.has list.now number }
{
    for item in list {
        if *item == number {
            return true;
        }
    }
    false
}

/// One number more, where it is new.
fn meet_one(found: &mut List<u32>, number: u32) -> Result<(), Memory>
    ensures { OnOk result (items_of found.new ≡ spec.meet_one (items_of found.old) number) }
{
    if has(found.items(), number) {
        Ok(())
    } else {
        found.push(number)
    }
}

/// The junctions to which a list leads, those that are new.
#[tactic(auto, unfolding(chart_code::specs::ReachedJunctions::meet, chart_code::specs::ReachedJunctions::junctions_to))]
fn meet_all(found: &mut List<u32>, list: &[Trans]) -> Result<(), Memory>
    ensures { OnOk result (items_of found.new
        ≡ spec.meet (items_of found.old) (spec.junctions_to (list_seen list.now))) }
{
    for trans in list {
        if let Dest::Junction(junction) = trans.dest {
            meet_one(found, junction)?;
        }
    }
    Ok(())
}

/// The junctions that are reached from a list of a chart, breadth first. `Memory` only where memory
/// was refused.
pub fn reached(alloc: Global, chart: &Chart, list: &[Trans]) -> Result<List<u32>, Memory>
    requires { AreTrans (chart_of chart.now) (list_seen list.now) }
    ensures reached { IfOk result (λ found. items_of found
        ≡ spec.reached (chart_of chart.now) (list_seen list.now)) }
    ensures within { IfOk result (λ found. AllByRecursion
        (λ j. j < junction_count (chart_of chart.now)) (items_of found)) }
{
    let mut found = List::of(Vec::new(alloc));
    meet_all(&mut found, list)?;
    for place in 0..chart.junctions() as usize {
        if place >= found.items().len() {
            break;
        }
        let next = found.items()[place];
        meet_all(&mut found, chart.junction(next))?;
    }
    Ok(found)
}

/// The place of a junction among those that were found.
#[tactic(auto, unfolding(chart_code::specs::ReachedJunctions::place_of))]
pub(crate) fn place_of(found: &[u32], junction: u32) -> u32
    requires { length found.now < 2 ^ 32 }
    ensures place { result ≡ spec.place_of found.now junction }
    ensures low { result ≤ length found.now }
{
    let mut place = 0;
    for item in found {
        if *item == junction {
            return place;
        }
        place += 1;
    }
    place
}
