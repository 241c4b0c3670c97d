//! The pass over the structure of a chart.
ghost use Rattle.std.specs.Prelude.{◌≡◌, ◌+◌, ◌*◌, ◌≤◌, ◌<◌, ◌↔◌, ℕ};
ghost use Rattle.std.specs.Prelude.{length, slice_index, IfOk, OnOk, None};
ghost use Rattle.active_config.specs.Tree.{state_count};
ghost use Rattle.chart_tree.specs.declared.first.FaultAt.{FaultAt};
ghost use Rattle.chart_tree.specs.First.{IsFirst, IsOne, Passed};
ghost use Rattle.chart_structure.specs.Marks.{state_bound};
ghost use Rattle.chart_structure.specs.Net as spec;
ghost use Rattle.chart_structure.specs.Structure.{StructureFault};
ghost use Rattle.chart_structure.specs.Valid.{IsValid};
ghost use Rattle.chart_structure.specs.Pass.{KindPassed, StatePassed, AddsPairs, AddsStatePairs};
ghost use Rattle.chart_structure.specs.Pass.{CountsPairs, IsAnswer};

use crate::lists::{with_junctions, with_list};
use crate::net::Net;
use crate::reach::reached_from;
use crate::states::with_state;
use chart_tree::{FaultAt, FormKind};
use checked_chart::ListKind;
use checked_chart::limits::PAIR_LIMIT;
use std::alloc::{AllocError, Global};

/// What the pass finds.
#[derive(Clone, Copy)]
pub struct Structure {
    /// The first fault.
    pub fault: Option<FaultAt>,
    /// How many pairs of a list and a transition there are, or 2^64 - 1 where there are more.
    pub pairs: u64,
}

/// The first fault of structure, and the number of pairs of a list and a transition. It takes a
/// number for each junction, and its time grows with the pairs times the depth of the tree.
///
/// Fails only where memory does.
fn find_faults(alloc: Global, net: &Net<'_>) -> Result<Structure, AllocError>
    requires { state_count net.now.tree < state_bound }
    ensures first { IfOk result (λ r. IsFirst (StructureFault net.now) r.fault) }
    ensures pairs { IfOk result (λ r. CountsPairs net.now r.pairs) }
{
    let mut marks = vec![in alloc; 0u32; net.junction_count()]?;
    with_states(alloc, net, &mut marks)
}

/// The first fault of structure, or else that there are too many pairs, or else none; and the
/// number of pairs.
///
/// Fails only where memory does.
pub fn first_fault(alloc: Global, net: &Net<'_>) -> Result<Structure, AllocError>
    requires { state_count net.now.tree < state_bound }
    ensures first { IfOk result (λ found. IsAnswer net.now found.fault) }
    ensures valid { IfOk result (λ found. (found.fault ≡ None) ↔ IsValid net.now) }
    ensures pairs { IfOk result (λ found. CountsPairs net.now found.pairs) }
{
    // Only the proof reads the tree: it has a root.
    let _ = net.shape();
    let found = find_faults(alloc, net)?;
    if found.fault.is_none() && found.pairs > PAIR_LIMIT as u64 {
        let fault = FaultAt {
            kind: FormKind::TooManyPairs,
            at: net.name(0),
        };
        return Ok(Structure {
            fault: Some(fault),
            pairs: found.pairs,
        });
    }
    Ok(found)
}

/// All states. No junction has a mark yet.
fn with_states(alloc: Global, net: &Net<'_>, marks: &mut [u32]) -> Result<Structure, AllocError>
    requires few { state_count net.now.tree < state_bound }
    requires sized { length marks.old ≡ spec.junction_count net.now }
    requires fresh { (j : ℕ) → slice_index marks.old j ≡ 0 }
    ensures first { IfOk result (λ r. IsFirst (StructureFault net.now) r.fault) }
    ensures pairs { IfOk result (λ r. CountsPairs net.now r.pairs) }
{
    let mut found = Structure {
        fault: None,
        pairs: 0,
    };
    for state in 0..net.shape().len() {
        found = with_lists(alloc, net, state, marks, found)?;
    }
    Ok(found)
}

/// One state more, with its three lists. Each list has a mark of its own.
fn with_lists(
    alloc: Global,
    net: &Net<'_>,
    state: u32,
    marks: &mut [u32],
    before: Structure,
) -> Result<Structure, AllocError>
    requires state { state < state_count net.now.tree }
    requires few { state_count net.now.tree < state_bound }
    requires sized { length marks.old ≡ spec.junction_count net.now }
    requires fresh { (j : ℕ) → slice_index marks.old j ≤ 3 * state }
    requires one { IsOne (StructureFault net.now) before.fault }
    ensures below { OnOk result ((j : ℕ) → slice_index marks.new j ≤ 3 * (state + 1)) }
    ensures one { IfOk result (λ r. IsOne (StructureFault net.now) r.fault) }
    ensures old { IfOk result (λ r. (f : FaultAt) → Passed before.fault f → Passed r.fault f) }
    ensures new { IfOk result (λ r. StatePassed net.now state r.fault) }
    ensures pairs { IfOk result (λ r. AddsStatePairs net.now state before.pairs r.pairs) }
{
    let own = Structure {
        fault: with_state(net, state, before.fault),
        pairs: before.pairs,
    };
    let (first, second, third) = (3 * state + 1, 3 * state + 2, 3 * state + 3);
    let outer = with_kind(alloc, net, state, ListKind::Outer, first, marks, own)?;
    let inner = with_kind(alloc, net, state, ListKind::Inner, second, marks, outer)?;
    let all = with_kind(alloc, net, state, ListKind::Default, third, marks, inner)?;
    Ok(all)
}

/// One list more. No junction has the mark yet.
fn with_kind(
    alloc: Global,
    net: &Net<'_>,
    state: u32,
    kind: ListKind,
    mark: u32,
    marks: &mut [u32],
    before: Structure,
) -> Result<Structure, AllocError>
    requires state { state < state_count net.now.tree }
    requires sized { length marks.old ≡ spec.junction_count net.now }
    requires some { 0 < mark }
    requires fresh { (j : ℕ) → slice_index marks.old j < mark }
    requires one { IsOne (StructureFault net.now) before.fault }
    ensures below { OnOk result ((j : ℕ) → slice_index marks.new j ≤ mark) }
    ensures one { IfOk result (λ r. IsOne (StructureFault net.now) r.fault) }
    ensures old { IfOk result (λ r. (f : FaultAt) → Passed before.fault f → Passed r.fault f) }
    ensures new { IfOk result (λ r. KindPassed net.now state kind r.fault) }
    ensures pairs { IfOk result (λ r. AddsPairs net.now (spec.list_of net.now state kind) before.pairs r.pairs) }
{
    let list = net.list(state, kind);
    let reach = reached_from(alloc, net, list, mark, marks)?;
    let own = with_list(net, state, kind, list, before.fault);
    let fault = with_junctions(net, state, kind, &reach.found, own);
    Ok(Structure {
        fault,
        pairs: before.pairs.saturating_add(reach.pairs),
    })
}
