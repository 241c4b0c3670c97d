//! What holds of the C of every valid chart.
ghost use Rattle.std.specs.Prelude.{ℕ};
ghost use Rattle.flow_base.specs.declared.bounds.Bounds.{Bounds};
ghost use Rattle.checked_chart.specs.Chart.{Chart};
ghost use Rattle.checked_chart.specs.Valid.{IsValid};
ghost use Rattle.code_language.specs.Code.{Code};
ghost use Rattle.code_shrink.specs.Shrunk.{IsShrunk};
ghost use Rattle.chart_code.specs.Bodies.{code_of_chart};
ghost use Rattle.c_functions.specs.Writer.{plans_of};
ghost use Rattle.c_functions.specs.Failing.{AfterIsRight};
ghost use Rattle.c_functions.specs.Plans.{Tests, all_tests};
ghost use Rattle.c_runs.specs.Claims.{FitsChart, RunsAsRules, Serves};

/// The C that is written for the smaller code of a valid chart under its bounds, with all tests,
/// and room for as many outputs as steps, runs as the rules say: its start and its reactions never
/// go wrong, and after each call the struct shows the active states, the remembered children, the
/// data, the outputs and the fault that the rules give.
pub fn files_run_as_charts()
    ensures { (c : Chart) (b : Bounds) (k : Code) → IsValid c → IsShrunk (code_of_chart c) k
        → RunsAsRules c b k all_tests b b.steps (plans_of k) }
{}

/// The same of the C that is written for any well-formed code which declares what a valid chart
/// does and has no results but those of its code: with tests, limits and room for outputs that
/// serve it, so that it runs as the chart under its bounds, and where the result of each procedure
/// that can fail is tested.
pub fn files_of_code_that_serves_run_as_charts()
    ensures { (c : Chart) (b : Bounds) (k : Code) (T : Tests) (limits : Bounds)
        (room : ℕ) → IsValid c → FitsChart c k → Serves c b k T limits room
        → AfterIsRight T k → RunsAsRules c b k T limits room (plans_of k) }
{}
