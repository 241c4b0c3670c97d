//! What holds of code whose sends lead elsewhere where no depth is left for them.
ghost use Rattle.std.specs.Prelude.{◌↔◌, List};
ghost use Rattle.flow_base.specs.declared.bounds.Bounds.{Bounds};
ghost use Rattle.actions.specs.Runs.{Moment, EventWithInputs};
ghost use Rattle.code_language.specs.Code.{Code};
ghost use Rattle.code_language.specs.Reactions.{CodeRun};
ghost use Rattle.code_language.specs.WellFormed.{IsCode};
ghost use Rattle.code_depths.specs.Depths.{HasSameRunsUnder, IsCut};

/// Well-formed code, cut for the depth of some bounds, has the runs of its code under these bounds,
/// whatever the first values of the data are; and so as both are declared.
pub fn cut_code_has_the_same_runs()
    ensures alike { (k k' : Code) (b : Bounds) → IsCode k' → IsCut b.depth k k'
        → HasSameRunsUnder b k k' }
    ensures runs { (k k' : Code) (b : Bounds) → HasSameRunsUnder b k k'
        → (events : List EventWithInputs) (moments : List Moment)
        → CodeRun k b events moments ↔ CodeRun k' b events moments }
{}
