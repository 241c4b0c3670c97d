//! What holds of all code that is made by what is known of notes.
ghost use Rattle.code_language.specs.Code.{Code};
ghost use Rattle.code_language.specs.WellFormed.{IsCode};
ghost use Rattle.code_copies.specs.SameRuns.{HasSameRuns};
ghost use Rattle.code_notes.specs.Noteless.{NotesPlan, made_code, PlanIsRight};

/// Code without notes that is made by a right plan has the runs of the code, where it is well
/// formed.
pub fn code_by_a_right_plan_of_notes_has_the_same_runs()
    ensures { (P : NotesPlan) (k : Code) → PlanIsRight P k → IsCode (made_code P k)
        → HasSameRuns k (made_code P k) }
{}
