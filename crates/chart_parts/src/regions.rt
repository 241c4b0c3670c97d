//! The parts of a chart, region by region of the layout.
ghost use Rattle.std.specs.Prelude.{◌≡◌, ◌<◌, ◌++◌, OnOk, IfOk};
ghost use Rattle.std.specs.List.{AllByRecursion};
ghost use Rattle.flow_base.specs.Lists.{items_of};
ghost use Rattle.active_config.specs.Tree.{state_count};
ghost use Rattle.checked_chart.specs.Chart.{junction_count};
ghost use Rattle.checked_chart.specs.Kept.{chart_of};
ghost use Rattle.chart_code.specs.Orders.{ascending, descending};
ghost use Rattle.chart_parts.specs.Parts as spec;
ghost use Rattle.chart_parts.specs.Regions.{region_parts, first_parts, last_parts};

use crate::groups::{append_group, append_lists};
use crate::part::Part;
use crate::transitions::{append_junction, append_transitions_of};
use checked_chart::{BlockKind, Chart};
use flow_base::{List, Memory};
use std::alloc::Global;

/// The parts of one state that stand together.
#[derive(Clone, Copy)]
pub(crate) enum Region {
    /// Its actions.
    Blocks,
    /// The parts of its transitions.
    Transitions,
    /// What a firing in it takes.
    Group,
    /// Its outer and its inner list.
    Lists,
    /// It is processed.
    Process,
}

/// Appends the actions of a state.
fn append_blocks(out: &mut List<Part>, state: u32) -> Result<(), Memory>
    ensures { OnOk result (items_of out.new ≡ items_of out.old ++ spec.block_parts state) }
{
    out.push(Part::Block(state, BlockKind::Entry))?;
    out.push(Part::Block(state, BlockKind::During))?;
    out.push(Part::Block(state, BlockKind::Exit))
}

/// Appends the parts of a region of a state.
fn append_region(
    alloc: Global,
    out: &mut List<Part>,
    chart: &Chart,
    region: Region,
    state: u32,
) -> Result<(), Memory>
    requires { state < state_count (chart_of chart.now).tree }
    ensures { OnOk result (items_of out.new
        ≡ items_of out.old ++ region_parts (chart_of chart.now) region state) }
{
    match region {
        Region::Blocks => append_blocks(out, state),
        Region::Transitions => append_transitions_of(out, chart, state),
        Region::Group => append_group(alloc, out, chart, state),
        Region::Lists => append_lists(alloc, out, chart, state),
        Region::Process => out.push(Part::Process(state)),
    }
}

/// Appends the parts of a region of all states, the first state first.
fn append_ascending(
    alloc: Global,
    out: &mut List<Part>,
    chart: &Chart,
    region: Region,
) -> Result<(), Memory>
    ensures { OnOk result (items_of out.new ≡ items_of out.old
        ++ ascending (region_parts (chart_of chart.now) region)
        (state_count (chart_of chart.now).tree)) }
{
    for state in 0..chart.shape().len() {
        append_region(alloc, out, chart, region, state)?;
    }
    Ok(())
}

/// Appends the parts of a region of all states, the last state first.
fn append_descending(
    alloc: Global,
    out: &mut List<Part>,
    chart: &Chart,
    region: Region,
) -> Result<(), Memory>
    ensures { OnOk result (items_of out.new ≡ items_of out.old
        ++ descending (region_parts (chart_of chart.now) region)
        (state_count (chart_of chart.now).tree)) }
{
    for state in (0..chart.shape().len()).rev() {
        append_region(alloc, out, chart, region, state)?;
    }
    Ok(())
}

/// Appends the parts of the transitions of all junctions.
fn append_junctions(out: &mut List<Part>, chart: &Chart) -> Result<(), Memory>
    ensures { OnOk result (items_of out.new ≡ items_of out.old
        ++ ascending (spec.junction_parts (chart_of chart.now))
        (junction_count (chart_of chart.now))) }
{
    for junction in 0..chart.junctions() {
        append_junction(out, chart, junction)?;
    }
    Ok(())
}

/// Appends the end mark, the actions, and the parts of all transitions.
fn append_first(alloc: Global, out: &mut List<Part>, chart: &Chart) -> Result<(), Memory>
    ensures { OnOk result (items_of out.new ≡ items_of out.old
        ++ first_parts (chart_of chart.now)) }
{
    out.push(Part::EndMark)?;
    append_ascending(alloc, out, chart, Region::Blocks)?;
    append_ascending(alloc, out, chart, Region::Transitions)?;
    append_junctions(out, chart)
}

/// Appends what firings take, the outer and inner lists, and the processing of all states.
fn append_last(alloc: Global, out: &mut List<Part>, chart: &Chart) -> Result<(), Memory>
    ensures { OnOk result (items_of out.new ≡ items_of out.old
        ++ last_parts (chart_of chart.now)) }
{
    append_descending(alloc, out, chart, Region::Group)?;
    append_descending(alloc, out, chart, Region::Lists)?;
    append_descending(alloc, out, chart, Region::Process)
}

/// What each procedure of the code that `compile` makes of a chart is of, in their order.
///
/// Its time and its memory grow with the number of procedures. `Memory` only where memory was
/// refused.
///
/// Source: this project's choice.
#[tactic(auto, unfolding(crate::specs::Parts::parts_of))]
pub fn chart_parts(alloc: Global, chart: &Chart) -> Result<List<Part>, Memory>
    ensures parts { IfOk result (λ parts. items_of parts ≡ spec.parts_of (chart_of chart.now)) }
    ensures states { IfOk result (λ parts.
        AllByRecursion (spec.IsPart (chart_of chart.now).tree) (items_of parts)) }
{
    // Only the proof reads the tree: the chart is valid.
    let _ = chart.shape();
    let mut parts = List::of(Vec::new(alloc));
    append_first(alloc, &mut parts, chart)?;
    append_last(alloc, &mut parts, chart)?;
    Ok(parts)
}
