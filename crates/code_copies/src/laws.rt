//! What holds of all code and its copies, and of passes one after the other.
ghost use Rattle.std.specs.Prelude.{◌↔◌, ℕ, List, Some};
ghost use Rattle.flow_base.specs.declared.bounds.Bounds.{Bounds};
ghost use Rattle.actions.specs.Runs.{Moment, EventWithInputs};
ghost use Rattle.code_language.specs.Code.{Code, instructions};
ghost use Rattle.code_language.specs.Reactions.{CodeRun};
ghost use Rattle.code_language.specs.WellFormed.{IsCode};
ghost use Rattle.code_shrink.specs.Shrunk.{IsShrunk};
ghost use Rattle.code_copies.specs.Asking.{asking_code, MayAsk};
ghost use Rattle.code_copies.specs.Follows.{CopyKey, HasCopies};
ghost use Rattle.code_copies.specs.Made.{CopyPlan, made_code, PlanIsRight};
ghost use Rattle.code_copies.specs.Rooted.{NeverClears, MakesRoot, IsRooted};
ghost use Rattle.code_copies.specs.SameRuns.{HasSameRuns};

/// Code whose procedures are copies, for known homes and events and an active root, of those of
/// other code has the runs of that code and no others, for all bounds and all lists of events.
pub fn copies_for_facts_run_as_their_code()
    ensures { (k k' : Code) (keys : List CopyKey) → HasCopies keys k k' → (b : Bounds)
        (events : List EventWithInputs) (moments : List Moment)
        → CodeRun k b events moments ↔ CodeRun k' b events moments }
{}

/// Code that is made of well-formed code by a right plan of copies is well formed and has its runs.
pub fn copies_by_a_right_plan_have_the_same_runs()
    ensures { (P : CopyPlan) (k : Code) → IsCode k → PlanIsRight P k
        → HasSameRuns k (made_code P k) }
{}

/// Well-formed code whose reaction asks for events first, where it may, is well formed and has the
/// same runs.
pub fn code_that_asks_for_events_has_the_same_runs()
    ensures { (es : List ℕ) (k : Code) → IsCode k → MayAsk es k → HasSameRuns k (asking_code es k) }
{}

/// Well-formed code whose start makes the root active, and of which no instruction makes it
/// inactive, has an active root wherever a reaction begins.
pub fn code_whose_start_marks_the_root_is_rooted()
    ensures { (k : Code) → IsCode k → NeverClears k.procedures
        → MakesRoot k.procedures (Some 0) (instructions k.procedures k.procedures.start)
        → IsRooted k }
{}

/// Well-formed code has its own runs, smaller code has those of its code, and what holds from code
/// to code twice holds from the first code to the last. As they are declared, both have the same
/// runs.
pub fn passes_with_the_same_runs_compose()
    ensures itself { (k : Code) → IsCode k → HasSameRuns k k }
    ensures shrunk { (k k' : Code) → IsShrunk k k' → HasSameRuns k k' }
    ensures both { (k k' k'' : Code) → HasSameRuns k k' → HasSameRuns k' k'' → HasSameRuns k k'' }
    ensures runs { (k k' : Code) → HasSameRuns k k' → (b : Bounds) (events : List EventWithInputs)
        (moments : List Moment) → CodeRun k b events moments ↔ CodeRun k' b events moments }
{}
