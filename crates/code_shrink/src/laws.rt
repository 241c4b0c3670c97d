//! What holds of all code, of its copies, and of the code that is made of it.
ghost use Rattle.std.specs.Prelude.{◌↔◌, ℕ, List, Bool};
ghost use Rattle.flow_base.specs.declared.bounds.Bounds.{Bounds};
ghost use Rattle.actions.specs.Runs.{Moment, EventWithInputs};
ghost use Rattle.code_language.specs.Code.{Code};
ghost use Rattle.code_language.specs.Reactions.{CodeRun};
ghost use Rattle.code_language.specs.WellFormed.{IsCode};
ghost use Rattle.code_shrink.specs.Follows.{HasCopy};
ghost use Rattle.code_shrink.specs.Shrunk.{IsShrunk};
ghost use Rattle.code_shrink.specs.Whole.{smaller_code, IsExact};

/// Code and its copy have the same runs, for all bounds and all lists of events.
pub fn copies_run_as_their_code()
    ensures copy { (k k' : Code) (R : ℕ → Bool) (m : ℕ → ℕ) → HasCopy R m k k' → (b : Bounds)
        (events : List EventWithInputs) (moments : List Moment) → CodeRun k b events moments
        → CodeRun k' b events moments }
    ensures back { (k k' : Code) (R : ℕ → Bool) (m : ℕ → ℕ) → HasCopy R m k k' → (b : Bounds)
        (events : List EventWithInputs) (moments : List Moment) → CodeRun k' b events moments
        → CodeRun k b events moments }
{}

/// What is left of well-formed code, where exactly what is reached is kept, is smaller code of the
/// same meaning.
pub fn what_is_reached_is_shrunk_code()
    ensures { (k : Code) (live : List Bool) (flags : List (List Bool)) → IsCode k
        → IsExact live flags k.procedures → IsShrunk k (smaller_code live flags k) }
{}

/// Smaller code has the runs of the code and no others, for all bounds and all lists of events.
pub fn shrunk_code_runs_as_its_code()
    ensures { (k k' : Code) → IsShrunk k k' → (b : Bounds) (events : List EventWithInputs)
        (moments : List Moment) → CodeRun k b events moments ↔ CodeRun k' b events moments }
{}
