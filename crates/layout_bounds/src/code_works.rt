//! How much work the procedures of a chart's code are.
ghost use Rattle.std.specs.Prelude.{◌≡◌, ◌≤◌, ◌*◌, ℕ, suc, Some, None, slice_get, slice_index};
ghost use Rattle.active_config.specs.Tree.{state_count};
ghost use Rattle.code_language.specs.declared.fault.CodeKind.TheVariants as kinds;
ghost use Rattle.code_language.specs.declared.limits.TheConstants.{WORK_LIMIT};
ghost use Rattle.code_language.specs.Measures.{greatest, works};
ghost use Rattle.code_language.specs.WellFormed.{first_over};
ghost use Rattle.checked_chart.specs.Chart.{Chart};
ghost use Rattle.checked_chart.specs.Counts.{item_count};
ghost use Rattle.checked_chart.specs.Valid.{IsValid};
ghost use Rattle.chart_code.specs.Bodies.{code_of_chart};
ghost use Rattle.chart_code.specs.Keys.{Key, layout};
ghost use Rattle.layout_bounds.specs.WorkBounds.{work_bound};

/// In the code of a valid chart each procedure has no more work than its kind may have.
pub fn each_procedure_has_the_work_of_its_kind()
    ensures { (c : Chart) (p : ℕ) (key : Key) → IsValid c → slice_get (layout c) p ≡ Some key
        → slice_index (works (code_of_chart c).procedures.procs) p ≤ work_bound c key }
{}

/// In the code of a valid chart no procedure has more work than 400 times one more than the number
/// of states times one more than the number of items. So none has too much.
pub fn the_code_of_a_chart_has_little_work()
    ensures bounded { (c : Chart) (p : ℕ) → IsValid c
        → slice_index (works (code_of_chart c).procedures.procs) p
        ≤ 400 * suc (state_count c.tree) * suc (item_count c) }
    ensures greatest { (c : Chart) → IsValid c
        → greatest (works (code_of_chart c).procedures.procs)
        ≤ 400 * suc (state_count c.tree) * suc (item_count c) }
    ensures none_over { (c : Chart) → IsValid c
        → first_over WORK_LIMIT kinds.TooMuchWork 0 (works (code_of_chart c).procedures.procs)
        ≡ None }
{}
