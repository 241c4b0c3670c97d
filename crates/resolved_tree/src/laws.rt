//! What the first of some faults is.
ghost use Rattle.std.specs.Prelude.{List};
ghost use Rattle.chart_tree.specs.declared.first.FaultAt.{FaultAt};
ghost use Rattle.chart_tree.specs.First.{IsFirst};
ghost use Rattle.resolved_tree.specs.Faults.{first_of, IsIn};

/// The first of a list of faults is one of them, and none of them comes before it; there is none
/// only where the list is empty.
pub fn the_first_of_a_list_comes_first()
    ensures { (faults : List FaultAt) → IsFirst (λ f. IsIn faults f) (first_of faults) }
{}
