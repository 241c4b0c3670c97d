//! The check of a resolved chart.
ghost use Rattle.std.specs.Prelude.{◌≡◌, None, IfOk, IfErr};
ghost use Rattle.checked_chart.specs.Kept.{chart_of};
ghost use Rattle.checked_chart.specs.Reached.{ChartPairs};
ghost use Rattle.resolved_tree.specs.Faults.{first_of};
ghost use Rattle.resolved_tree.specs.Plain as plain;
ghost use Rattle.resolved_tree.specs.Promise.{KeepsPromise};
ghost use Rattle.resolved_tree.specs.Views.{resolved_of};
ghost use Rattle.chart_structure.specs.Pass.{CountsPairs};
ghost use Rattle.chart_types.specs.Types.{type_faults};
ghost use Rattle.chart_check.specs.Check.{IsAnswer, IsChecked, HasNoFaults, Refuses};
ghost use Rattle.chart_check.specs.Nets as nets;

use crate::parts::chart_parts;
use crate::resolved_net::net_of;
use chart_structure::{Structure, first_fault};
use chart_tree::{FaultAt, FormFault};
use chart_types::first_type_fault;
use checked_chart::Chart;
use flow_base::Memory;
use resolved_tree::Resolved;
use std::alloc::Global;

/// A valid chart, and how many pairs it has.
#[derive(Drop)]
pub struct Checked {
    /// The chart.
    pub chart: Chart,
    /// How many pairs of a list of a state and a transition that can be reached from it: at most
    /// `PAIR_LIMIT`.
    pub pairs: u32,
}

/// What the structure of a resolved chart without faults of types has: its first fault, none where
/// the chart is sound, and the number of its pairs.
fn structure_of(alloc: Global, resolved: &Resolved) -> Result<Structure, Memory>
    requires resolved { KeepsPromise (resolved_of resolved.now) }
    requires types { first_of (type_faults (resolved_of resolved.now)) ≡ None }
    ensures fault { IfOk result (λ found. IsAnswer (resolved_of resolved.now) found.fault) }
    ensures pairs { IfOk result (λ found.
        CountsPairs (nets.net_of (resolved_of resolved.now)) found.pairs) }
{
    let net = net_of(alloc, resolved)?;
    let found = first_fault(alloc, &net)?;
    Ok(found)
}

/// The number of pairs of a resolved chart without faults of types, or its first fault.
fn structure_pairs(alloc: Global, resolved: &Resolved) -> Result<u32, FormFault>
    requires resolved { KeepsPromise (resolved_of resolved.now) }
    requires types { first_of (type_faults (resolved_of resolved.now)) ≡ None }
    ensures sound { IfOk result (λ pairs. HasNoFaults (resolved_of resolved.now)) }
    ensures pairs { IfOk result (λ pairs.
        ChartPairs (plain.chart_of (resolved_of resolved.now)) pairs) }
    ensures refused { IfErr result (Refuses (resolved_of resolved.now)) }
{
    match structure_of(alloc, resolved) {
        Ok(found) => match found.fault {
            Some(FaultAt { kind, at }) => Err(FormFault::At(kind, at)),
            None => Ok(found.pairs as u32),
        },
        Err(Memory) => Err(FormFault::Memory),
    }
}

/// The number of pairs of a sound resolved chart, or the first fault of another one.
fn sound_pairs(alloc: Global, resolved: &Resolved) -> Result<u32, FormFault>
    requires { KeepsPromise (resolved_of resolved.now) }
    ensures sound { IfOk result (λ pairs. HasNoFaults (resolved_of resolved.now)) }
    ensures pairs { IfOk result (λ pairs.
        ChartPairs (plain.chart_of (resolved_of resolved.now)) pairs) }
    ensures refused { IfErr result (Refuses (resolved_of resolved.now)) }
{
    match first_type_fault(resolved) {
        Some(FaultAt { kind, at }) => Err(FormFault::At(kind, at)),
        None => structure_pairs(alloc, resolved),
    }
}

/// The chart for which a sound resolved chart stands.
fn chart_from(alloc: Global, resolved: Resolved) -> Result<Chart, Memory>
    requires resolved { KeepsPromise (resolved_of resolved) }
    requires sound { HasNoFaults (resolved_of resolved) }
    ensures { IfOk result (λ c. IsChecked (resolved_of resolved) (chart_of c)) }
{
    let parts = chart_parts(alloc, resolved)?;
    Ok(Chart::make(parts.shape, parts.names, parts.states, parts.junctions))
}

/// The chart for which a resolved chart stands and the number of its pairs, or the first fault of
/// its types, else of its structure, else of the number of its pairs. The resolved chart is dropped
/// in any case.
pub fn check(alloc: Global, resolved: Resolved) -> Result<Checked, FormFault>
    requires { KeepsPromise (resolved_of resolved) }
    ensures accepted { IfOk result (λ c. IsChecked (resolved_of resolved) (chart_of c.chart)) }
    ensures pairs { IfOk result (λ c. ChartPairs (chart_of c.chart) c.pairs) }
    ensures refused { IfErr result (Refuses (resolved_of resolved)) }
{
    let pairs = match sound_pairs(alloc, &resolved) {
        Ok(pairs) => pairs,
        Err(fault) => return Err(fault),
    };
    match chart_from(alloc, resolved) {
        Ok(chart) => Ok(Checked { chart, pairs }),
        Err(Memory) => Err(FormFault::Memory),
    }
}
