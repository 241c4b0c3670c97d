//! What holds of all code that is made by passes.
ghost use Rattle.std.specs.Prelude.{List};
ghost use Rattle.std.specs.List.{All};
ghost use Rattle.code_copies.specs.SameRuns.{HasSameRuns};
ghost use Rattle.code_language.specs.Code.{Code};
ghost use Rattle.code_language.specs.WellFormed.{IsCode};
ghost use Rattle.code_passes.specs.Passed.{IsPass, IsPassed};
ghost use Rattle.code_passes.specs.Tags.{AreTags, ComesFrom};
ghost use Rattle.code_passes.specs.declared.tag.Tag.{Tag};

/// Code that is made of well-formed code by passes is well formed and has its runs.
pub fn passed_code_has_the_same_runs()
    ensures { (k k' : Code) (tags : List Tag) → IsCode k → IsPassed k k' tags → HasSameRuns k k' }
{}

/// Each procedure of code that is made by passes has a tag, whose procedure, home and event are
/// those of the code that was given.
pub fn tags_name_procedures_states_and_events_of_the_code()
    ensures { (k k' : Code) (tags : List Tag) → IsPassed k k' tags → AreTags k k' tags }
{}

/// What a tag tells of a procedure stays told of those that a pass makes of it.
pub fn passes_keep_what_tags_tell()
    ensures { (k k' : Code) (tags tags' : List Tag) → IsPass k tags k' tags' → All (ComesFrom tags) tags' }
{}
