//! What a good certificate means for runs, and what the need of a chart is.
ghost use Rattle.std.specs.Prelude.{◌≡◌, ◌≤◌, ℕ, List, Option, None};
ghost use Rattle.std.specs.List.{AllByRecursion};
ghost use Rattle.flow_base.specs.declared.bounds.Bounds.{Bounds};
ghost use Rattle.actions.specs.declared.event.Event.{Event};
ghost use Rattle.actions.specs.Runs.{EventWithInputs, Moment, CanBeGiven};
ghost use Rattle.checked_chart.specs.Chart.{Chart};
ghost use Rattle.checked_chart.specs.Valid.{IsValid};
ghost use Rattle.sos_rules.specs.Reactions.{RulesRun};
ghost use Rattle.bound_prove.specs.declared.need.Need.{Need};
ghost use Rattle.bound_prove.specs.declared.need.Part.{Part};
ghost use Rattle.bound_prove.specs.Cells.{Cells, IsGood};
ghost use Rattle.bound_prove.specs.Roots.{root_need, IsWithin, NoOverrun};
ghost use Rattle.bound_prove.specs.Searches.{IsNeedOf, IsLeast, Answers, IsBelowRoot, LeadsOn};
ghost use Rattle.bound_prove.specs.Uses.{Uses};

/// Where a certificate is good and its roots give bounds, no run within these bounds or greater
/// ones is ended by a bound.
pub fn no_overrun()
    ensures { (c : Chart) (g : Cells) (b : Bounds) (events : List EventWithInputs)
        (moments : List Moment) → IsGood c g → IsWithin (root_need c g)
        → (root_need c g).depth ≤ b.depth → (root_need c g).steps ≤ b.steps
        → AllByRecursion (CanBeGiven c.names) events → RulesRun c b events moments
        → AllByRecursion (λ (m : Moment). NoOverrun m.fault) moments }
{}

/// A chart has at most one need, and the least good certificate, if there is one, gives it.
pub fn one_need()
    ensures only { (c : Chart) (m n : Option Need) → IsNeedOf c m → IsNeedOf c n → m ≡ n }
    ensures least { (c : Chart) (g : Cells) (n : Option Need) → IsLeast c g → Answers
        (root_need c g) n
        → IsNeedOf c n }
{}

/// In every good certificate needs rise from the cells that a cell looks up to the cell: by a step,
/// or to a higher rank. So a cell on a cycle is at the end of the steps, and where a root leads to
/// it there are no bounds.
pub fn cycles_have_no_bounds()
    ensures rise { (c : Chart) (e : Event) (part : Part) (i : ℕ) → IsValid c
        → Uses c (LeadsOn c e part i) e part i }
    ensures cycle { (c : Chart) (e : Event) (part : Part) (i : ℕ) → IsBelowRoot c e part i
        → LeadsOn c e part i e part i → IsNeedOf c None }
{}
