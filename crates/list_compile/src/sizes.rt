//! How many procedures the parts of transitions have, and how many states are below a state.
ghost use Rattle.std.specs.Prelude.{◌≡◌, ◌<◌, ◌≤◌, ◌^◌};
ghost use Rattle.active_config.specs.Tree.{state_count};
ghost use Rattle.active_config.specs.Tree as trees;
ghost use Rattle.checked_chart.specs.Views.{list_seen, trans_seen};
ghost use Rattle.chart_code.specs.Ends as ends;
ghost use Rattle.chart_code.specs.Places as places;

use active_config::Shape;
use checked_chart::Trans;

/// How many procedures the parts of a transition have.
#[tactic(auto, unfolding(chart_code::specs::Places::trans_size))]
pub(crate) fn trans_size(trans: &Trans) -> u32
    ensures size { result ≡ places.trans_size (trans_seen trans.now) }
    ensures few { result ≤ 4 }
{
    let guard = if trans.guard.is_some() { 1 } else { 0 };
    let condition = if trans.cond.items().is_empty() { 0 } else { 2 };
    let action = if trans.act.items().is_empty() { 0 } else { 1 };
    guard + condition + action
}

/// How many procedures the parts of the transitions of a list have.
#[tactic(auto, unfolding(chart_code::specs::Places::parts_size))]
pub(crate) fn parts_size(list: &[Trans]) -> u32
    requires { places.parts_size (list_seen list.now) < 2 ^ 32 }
    ensures { result ≡ places.parts_size (list_seen list.now) }
{
    let mut size = 0;
    for trans in list {
        size += trans_size(trans);
    }
    size
}

/// How many states are strictly below a state. It takes no memory.
pub fn below_count(shape: &Shape, state: u32) -> u32
    requires tree { trees.IsTree shape.now }
    requires state { state < state_count shape.now }
    ensures { result ≡ ends.below_count shape.now state }
{
    let count = shape.len();
    let mut next = state + 1;
    while next < count && shape.is_below(next, state) {
        next += 1;
    }
    next - (state + 1)
}
