//! What the first fault of a resolved chart is.
ghost use Rattle.std.specs.Prelude.{◌≡◌, ◌⊎◌};
ghost use Rattle.chart_tree.specs.declared.first.FaultAt.{FaultAt};
ghost use Rattle.resolved_tree.specs.Promise.{KeepsPromise};
ghost use Rattle.resolved_tree.specs.Resolved.{Resolved};
ghost use Rattle.chart_check.specs.Check.{HasNoFaults, IsFirstOf};

/// A resolved chart has at most one first fault, and none where it is sound.
pub fn a_chart_has_one_first_fault()
    ensures one { (r : Resolved) (f g : FaultAt) → IsFirstOf r f → IsFirstOf r g → f ≡ g }
    ensures none { (r : Resolved) (f : FaultAt) → HasNoFaults r → IsFirstOf r f → ⊥ }
{}

/// A resolved chart that isn't sound has a first fault.
pub fn a_chart_is_sound_or_has_a_first_fault()
    ensures { (r : Resolved) → KeepsPromise r → HasNoFaults r ⊎ ((f : FaultAt) × IsFirstOf r f) }
{}
