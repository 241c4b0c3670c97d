//! Tables of how many things each state and each junction has.
ghost use Rattle.std.specs.Prelude.{◌≡◌, ◌<◌, ◌≤◌, ◌+◌, ◌*◌, length, slice_index_or, IfOk};
ghost use Rattle.flow_base.specs.declared.chart_limits.TheConstants.{STATE_LIMIT, JUNCTION_LIMIT};
ghost use Rattle.flow_base.specs.Lists.{items_of};
ghost use Rattle.active_config.specs.Tree.{IsTree, state_count};
ghost use Rattle.checked_chart.specs.Chart.{junction_count};
ghost use Rattle.checked_chart.specs.Kept.{chart_of};
ghost use Rattle.chart_code.specs.Ends as ends;
ghost use Rattle.chart_code.specs.Places as places;
ghost use Rattle.list_compile.specs.declared.number_limits.TheConstants as limits;
ghost use Rattle.list_compile.specs.Tables.{IsTable, AreLow};

use crate::number_offsets::{BELOW_SIZE, GROUP_SIZE, LISTS_SIZE};
use crate::reached::reached;
use crate::sizes::{below_count, parts_size};
use crate::tables::entry;
use active_config::Shape;
use checked_chart::{Chart, ListKind};
use flow_base::{List, Memory};
use std::alloc::Global;

/// How many states are strictly below each state.
pub(crate) fn below_counts(alloc: Global, shape: &Shape) -> Result<List<u32>, Memory>
    requires tree { IsTree shape.now }
    requires few { state_count shape.now ≤ STATE_LIMIT }
    ensures { IfOk result (λ counts.
        IsTable (ends.below_count shape.now) (state_count shape.now) STATE_LIMIT
        (items_of counts)) }
{
    let mut counts = List::of(Vec::new(alloc));
    for state in 0..shape.len() {
        counts.push(below_count(shape, state))?;
    }
    Ok(counts)
}

/// How many junctions the list of this kind of each state reaches.
pub(crate) fn reached_counts(
    alloc: Global,
    chart: &Chart,
    kind: ListKind,
) -> Result<List<u32>, Memory>
    ensures { IfOk result (λ counts. IsTable (λ s. places.reached_count (chart_of chart.now) s kind)
        (state_count (chart_of chart.now).tree) JUNCTION_LIMIT (items_of counts)) }
{
    let mut counts = List::of(Vec::new(alloc));
    for state in 0..chart.shape().len() {
        let found = reached(alloc, chart, chart.list(state, kind))?;
        counts.push(found.items().len() as u32)?;
    }
    Ok(counts)
}

/// How many procedures the parts of the transitions of a list of a state have.
pub(crate) fn list_parts_size(chart: &Chart, state: u32, kind: ListKind) -> u32
    requires { state < state_count (chart_of chart.now).tree }
    ensures size { result ≡ places.parts_size
        (Rattle.checked_chart.specs.Chart.list_of (chart_of chart.now) state kind) }
    ensures low { result ≤ limits.LIST_PARTS_LIMIT }
{
    // Only the proof reads the tree: the chart is valid.
    let _ = chart.shape();
    parts_size(chart.list(state, kind))
}

/// How many procedures the parts of the transitions of a state have.
#[tactic(auto, unfolding(chart_code::specs::Places::state_parts_size))]
fn state_parts_size(chart: &Chart, state: u32) -> u32
    requires { state < state_count (chart_of chart.now).tree }
    ensures size { result ≡ places.state_parts_size (chart_of chart.now) state }
    ensures low { result ≤ limits.STATE_PARTS_LIMIT }
{
    list_parts_size(chart, state, ListKind::Outer)
        + list_parts_size(chart, state, ListKind::Inner)
        + list_parts_size(chart, state, ListKind::Default)
}

/// How many procedures the parts of the transitions of each state have.
pub(crate) fn state_parts_sizes(alloc: Global, chart: &Chart) -> Result<List<u32>, Memory>
    ensures { IfOk result (λ sizes. IsTable (places.state_parts_size (chart_of chart.now))
        (state_count (chart_of chart.now).tree) limits.SIZE_LIMIT (items_of sizes)) }
{
    let mut sizes = List::of(Vec::new(alloc));
    for state in 0..chart.shape().len() {
        sizes.push(state_parts_size(chart, state))?;
    }
    Ok(sizes)
}

/// How many procedures the parts of the transitions of a junction have.
#[tactic(auto, unfolding(chart_code::specs::Places::junction_parts_size))]
fn junction_parts_size(chart: &Chart, junction: u32) -> u32
    requires { junction < junction_count (chart_of chart.now) }
    ensures size { result ≡ places.junction_parts_size (chart_of chart.now) junction }
    ensures low { result ≤ limits.LIST_PARTS_LIMIT }
{
    // Only the proof reads the tree: the chart is valid.
    let _ = chart.shape();
    parts_size(chart.junction(junction))
}

/// How many procedures the parts of the transitions of each junction have.
pub(crate) fn junction_parts_sizes(alloc: Global, chart: &Chart) -> Result<List<u32>, Memory>
    ensures { IfOk result (λ sizes. IsTable (places.junction_parts_size (chart_of chart.now))
        (junction_count (chart_of chart.now)) limits.SIZE_LIMIT (items_of sizes)) }
{
    let mut sizes = List::of(Vec::new(alloc));
    for junction in 0..chart.junctions() {
        sizes.push(junction_parts_size(chart, junction))?;
    }
    Ok(sizes)
}

/// How many procedures there are for firings in each state, from how many states are below it and
/// how many junctions its default list reaches.
pub(crate) fn group_sizes(
    alloc: Global,
    below: &List<u32>,
    default: &List<u32>,
) -> Result<List<u32>, Memory>
    requires same { length (items_of below.now) ≡ length (items_of default.now) }
    requires few { length (items_of below.now) ≤ STATE_LIMIT }
    requires below { AreLow STATE_LIMIT (items_of below.now) }
    requires default { AreLow JUNCTION_LIMIT (items_of default.now) }
    ensures { IfOk result (λ sizes. IsTable
        (λ s. BELOW_SIZE * slice_index_or (items_of below.now) s 0 + GROUP_SIZE
        + slice_index_or (items_of default.now) s 0)
        (length (items_of below.now)) limits.SIZE_LIMIT (items_of sizes)) }
{
    let mut sizes = List::of(Vec::new(alloc));
    for state in 0..below.items().len() as u32 {
        sizes.push(BELOW_SIZE * entry(below, state) + GROUP_SIZE + entry(default, state))?;
    }
    Ok(sizes)
}

/// How many procedures there are for the outer and the inner list of each state, from how many
/// junctions these reach.
pub(crate) fn lists_sizes(
    alloc: Global,
    outer: &List<u32>,
    inner: &List<u32>,
) -> Result<List<u32>, Memory>
    requires same { length (items_of outer.now) ≡ length (items_of inner.now) }
    requires few { length (items_of outer.now) ≤ STATE_LIMIT }
    requires outer { AreLow JUNCTION_LIMIT (items_of outer.now) }
    requires inner { AreLow JUNCTION_LIMIT (items_of inner.now) }
    ensures { IfOk result (λ sizes. IsTable
        (λ s. LISTS_SIZE + slice_index_or (items_of outer.now) s 0
        + slice_index_or (items_of inner.now) s 0)
        (length (items_of outer.now)) limits.SIZE_LIMIT (items_of sizes)) }
{
    let mut sizes = List::of(Vec::new(alloc));
    for state in 0..outer.items().len() as u32 {
        sizes.push(LISTS_SIZE + entry(outer, state) + entry(inner, state))?;
    }
    Ok(sizes)
}
