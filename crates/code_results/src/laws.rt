//! What holds of all code that is made by what is known of results.
ghost use Rattle.code_language.specs.Code.{Code};
ghost use Rattle.code_language.specs.WellFormed.{IsCode};
ghost use Rattle.code_copies.specs.SameRuns.{HasSameRuns};
ghost use Rattle.code_results.specs.Folded.{ResultPlan, made_code, PlanIsRight};

/// Code that is made of well-formed code by a right plan of results is well formed and has its
/// runs.
pub fn code_by_a_right_plan_of_results_has_the_same_runs()
    ensures { (P : ResultPlan) (k : Code) → IsCode k → PlanIsRight P k
        → HasSameRuns k (made_code P k) }
{}
