//! The table of the states of a chart's code.
ghost use Rattle.std.specs.Prelude.{◌≡◌, map, IfOk};
ghost use Rattle.flow_base.specs.Lists.{items_of};
ghost use Rattle.checked_chart.specs.Kept.{chart_of};
ghost use Rattle.code_language.specs.Code.{tree_of_states};

use checked_chart::Chart;
use code_language::RawState;
use flow_base::{List, Memory};
use std::alloc::Global;

/// The states of a chart, each with its parent, its composition and its name.
pub(crate) fn states(alloc: Global, chart: &Chart) -> Result<List<RawState>, Memory>
    ensures tree { IfOk result (λ states.
        tree_of_states (items_of states) ≡ (chart_of chart.now).tree) }
    ensures names { IfOk result (λ states. map (λ (s : RawState). s.name) (items_of states)
        ≡ (chart_of chart.now).names.states) }
{
    let shape = chart.shape();
    let names = chart.names().states.items();
    let mut states = List::of(Vec::new(alloc));
    for state in 0..shape.len() {
        states.push(RawState {
            parent: shape.parent(state),
            comp: shape.comp(state),
            name: names[state as usize].copied(alloc)?,
        })?;
    }
    Ok(states)
}
