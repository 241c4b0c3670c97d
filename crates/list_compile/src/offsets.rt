//! Tables of how many procedures stand before those of each state and of each junction.
ghost use Rattle.std.specs.Prelude.{suc, IfOk};
ghost use Rattle.flow_base.specs.declared.chart_limits.TheConstants.{STATE_LIMIT, JUNCTION_LIMIT};
ghost use Rattle.flow_base.specs.Lists.{items_of};
ghost use Rattle.active_config.specs.Tree.{state_count};
ghost use Rattle.checked_chart.specs.Chart.{junction_count};
ghost use Rattle.checked_chart.specs.declared.parts.ListKind.TheVariants.{Outer, Default};
ghost use Rattle.checked_chart.specs.Kept.{chart_of};
ghost use Rattle.chart_code.specs.Ends as ends;
ghost use Rattle.chart_code.specs.Orders.{sum_to};
ghost use Rattle.chart_code.specs.Places as places;
ghost use Rattle.list_compile.specs.declared.number_limits.TheConstants as limits;
ghost use Rattle.list_compile.specs.Tables.{IsTable};

use crate::counts::{
    group_sizes, junction_parts_sizes, lists_sizes, reached_counts, state_parts_sizes,
};
use crate::tables::sums_before;
use checked_chart::{Chart, ListKind};
use flow_base::{List, Memory};
use std::alloc::Global;

/// How many procedures the parts of the transitions of the states before each state have.
pub(crate) fn parts_before(alloc: Global, chart: &Chart) -> Result<List<u32>, Memory>
    ensures { IfOk result (λ sums. IsTable (sum_to (places.state_parts_size (chart_of chart.now)))
        (suc (state_count (chart_of chart.now).tree)) limits.SUM_LIMIT (items_of sums)) }
{
    // Only the proof reads the tree: the chart is valid.
    let _ = chart.shape();
    let sizes = state_parts_sizes(alloc, chart)?;
    sums_before(alloc, &sizes)
}

/// How many procedures the parts of the transitions of the junctions before each one have.
pub(crate) fn junction_parts_before(alloc: Global, chart: &Chart) -> Result<List<u32>, Memory>
    ensures { IfOk result (λ sums. IsTable
        (sum_to (places.junction_parts_size (chart_of chart.now)))
        (suc (junction_count (chart_of chart.now))) limits.SUM_LIMIT (items_of sums)) }
{
    // Only the proof reads the tree: the chart is valid.
    let _ = chart.shape();
    let sizes = junction_parts_sizes(alloc, chart)?;
    sums_before(alloc, &sizes)
}

/// How many procedures there are for firings in the states before each state, from how many states
/// are below each one and how many junctions its default list reaches.
pub(crate) fn groups_before(
    alloc: Global,
    chart: &Chart,
    below: &List<u32>,
    default: &List<u32>,
) -> Result<List<u32>, Memory>
    requires below { IsTable (ends.below_count (chart_of chart.now).tree)
        (state_count (chart_of chart.now).tree) STATE_LIMIT (items_of below.now) }
    requires default { IsTable (λ s. places.reached_count (chart_of chart.now) s Default)
        (state_count (chart_of chart.now).tree) JUNCTION_LIMIT (items_of default.now) }
    ensures { IfOk result (λ sums. IsTable (sum_to (places.group_size (chart_of chart.now)))
        (suc (state_count (chart_of chart.now).tree)) limits.SUM_LIMIT (items_of sums)) }
{
    // Only the proof reads the tree: the chart is valid.
    let _ = chart.shape();
    let sizes = group_sizes(alloc, below, default)?;
    sums_before(alloc, &sizes)
}

/// How many procedures there are for the outer and inner lists of the states before each state,
/// from how many junctions the outer list of each one reaches.
pub(crate) fn lists_before(
    alloc: Global,
    chart: &Chart,
    outer: &List<u32>,
) -> Result<List<u32>, Memory>
    requires outer { IsTable (λ s. places.reached_count (chart_of chart.now) s Outer)
        (state_count (chart_of chart.now).tree) JUNCTION_LIMIT (items_of outer.now) }
    ensures { IfOk result (λ sums. IsTable (sum_to (places.lists_size (chart_of chart.now)))
        (suc (state_count (chart_of chart.now).tree)) limits.SUM_LIMIT (items_of sums)) }
{
    // Only the proof reads the tree: the chart is valid.
    let _ = chart.shape();
    let inner = reached_counts(alloc, chart, ListKind::Inner)?;
    let sizes = lists_sizes(alloc, outer, &inner)?;
    sums_before(alloc, &sizes)
}
