//! What holds of code in which procedures stand for equal ones.
ghost use Rattle.std.specs.Prelude.{ℕ};
ghost use Rattle.code_language.specs.Code.{Code};
ghost use Rattle.code_language.specs.WellFormed.{IsCode};
ghost use Rattle.code_copies.specs.SameRuns.{HasSameRuns};
ghost use Rattle.code_merging.specs.Merged.{AreEqual, merged_code};

/// Well-formed code in which procedures stand for equal ones is well formed and has the same runs.
pub fn code_whose_equal_procedures_are_one_has_the_same_runs()
    ensures { (m : ℕ → ℕ) (k : Code) → IsCode k → AreEqual m k.procedures
        → HasSameRuns k (merged_code m k) }
{}
