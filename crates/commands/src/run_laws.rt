//! What `exec` writes of compiled code, and of smaller code of the same meaning.
ghost use Rattle.std.specs.Prelude.{◌↔◌, ◌≤◌, ℕ, List, Some};
ghost use Rattle.std.specs.List.{AllByRecursion};
ghost use Rattle.flow_base.specs.declared.bounds.Bounds.{Bounds};
ghost use Rattle.actions.specs.Runs.{CanBeGiven, EventWithInputs, Moment};
ghost use Rattle.checked_chart.specs.Chart.{Chart};
ghost use Rattle.checked_chart.specs.Valid.{IsValid};
ghost use Rattle.bound_prove.specs.declared.need.Need.{Need};
ghost use Rattle.bound_prove.specs.Roots.{NoOverrun};
ghost use Rattle.bound_prove.specs.Searches.{IsNeedOf};
ghost use Rattle.chart_compile.specs.Compiled.{RunsAs};
ghost use Rattle.chart_code.specs.Bodies.{code_of_chart};
ghost use Rattle.code_language.specs.Code.{Code};
ghost use Rattle.code_language.specs.Reactions.{CodeRun};
ghost use Rattle.code_shrink.specs.Shrunk.{IsShrunk};
ghost use Rattle.commands.specs.Call.{Call};
ghost use Rattle.commands.specs.declared.traced.TraceEnd.{TraceEnd};
ghost use Rattle.commands.specs.Trace.{TraceEnds};
ghost use Rattle.commands.specs.Exec.{by_code};
ghost use Rattle.commands.specs.Run.{by_compiled};

/// Over every event file, with all bounds, the code of a valid chart is traced as the chart is by
/// the rules: the same bytes, and the same ending.
pub fn compiled_code_is_traced_as_its_chart()
    ensures { (c : Chart) (bounds : Bounds) (call : Call) (second : List ℕ) (end : TraceEnd)
        → IsValid c → TraceEnds (by_code (code_of_chart c) bounds) call second end
        ↔ TraceEnds (by_compiled c bounds) call second end }
{}

/// What `shrink` makes of the code of a valid chart has the runs of the chart and no others, and
/// over every event file, with all bounds, it is traced as the chart is by the rules.
pub fn shrunk_code_runs_as_its_chart()
    ensures runs { (c : Chart) (k : Code) → IsValid c → IsShrunk (code_of_chart c) k → RunsAs c k }
    ensures traced { (c : Chart) (k : Code) (bounds : Bounds) (call : Call) (second : List ℕ)
        (end : TraceEnd) → IsValid c → IsShrunk (code_of_chart c) k
        → TraceEnds (by_code k bounds) call second end
        ↔ TraceEnds (by_compiled c bounds) call second end }
{}

/// Code that runs as a chart, as what `compile` and `shrink` make of it does, has no depth and no
/// steps fault under bounds that cover the need of the chart, whatever events it is given.
pub fn code_of_a_chart_overruns_no_bounds_of_its_need()
    ensures fine { (c : Chart) (k : Code) (n : Need) (bounds : Bounds) (events : List EventWithInputs)
        (moments : List Moment) → RunsAs c k → IsNeedOf c (Some n) → n.depth ≤ bounds.depth
        → n.steps ≤ bounds.steps → AllByRecursion (CanBeGiven c.names) events
        → CodeRun k bounds events moments
        → AllByRecursion (λ (m : Moment). NoOverrun m.fault) moments }
    ensures compiled { (c : Chart) → IsValid c → RunsAs c (code_of_chart c) }
{}
