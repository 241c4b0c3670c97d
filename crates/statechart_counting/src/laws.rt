//! The laws of counters of statecharts.
ghost use Rattle.std.specs.Prelude.{◌≡◌};
ghost use Rattle.statechart_tree.specs.Trees.{Statechart};
ghost use Rattle.statechart_meaning.specs.Expand.{expand, uncounted};
ghost use Rattle.counting_trees.specs.Counting.{counting, IsReady};
ghost use Rattle.statechart_counting.specs.Counters.{counters_by_state};

/// The chart for which a statechart stands is the chart without what counts, with its counters
/// counting, and that chart is ready for them.
pub fn counters_are_written_out()
    ensures counted { (x : Statechart) → expand x ≡ counting (counters_by_state x) (uncounted x) }
    ensures ready { (x : Statechart) → IsReady (counters_by_state x) (uncounted x) }
{}
