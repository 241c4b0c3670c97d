//! What holds of code that is made of copies.
ghost use Rattle.std.specs.Prelude.{ℕ, List};
ghost use Rattle.code_language.specs.Code.{Code};
ghost use Rattle.code_language.specs.WellFormed.{IsCode};
ghost use Rattle.code_copies.specs.SameRuns.{HasSameRuns};
ghost use Rattle.code_pure_copies.specs.PureCopies.{ArePureCopies};

/// Well-formed code whose procedures are copies of those of other code has the runs of that code.
pub fn pure_copies_run_as_their_code()
    ensures { (k k' : Code) (origins : List ℕ) → IsCode k' → ArePureCopies k k' origins
        → HasSameRuns k k' }
{}
