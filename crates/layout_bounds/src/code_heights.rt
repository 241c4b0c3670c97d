//! How high the procedures of the code of a chart are.
ghost use Rattle.std.specs.Prelude.{◌≡◌, ◌≤◌, ◌+◌, ◌*◌, ℕ, Some, None, slice_get, slice_index};
ghost use Rattle.flow_base.specs.declared.chart_limits.TheConstants.{STATE_DEPTH_LIMIT};
ghost use Rattle.checked_chart.specs.Chart.{Chart};
ghost use Rattle.checked_chart.specs.Valid.{IsValid};
ghost use Rattle.code_language.specs.declared.fault.CodeKind.TheVariants as kinds;
ghost use Rattle.code_language.specs.declared.limits.TheConstants.{HEIGHT_LIMIT};
ghost use Rattle.code_language.specs.Measures.{heights, greatest};
ghost use Rattle.code_language.specs.WellFormed.{first_over};
ghost use Rattle.chart_code.specs.Bodies.{code_of_chart};
ghost use Rattle.chart_code.specs.Keys.{Key, layout};
ghost use Rattle.layout_bounds.specs.HeightBounds.{height_bound};

/// No procedure of the code of a valid chart is higher than its kind and the rank of its state
/// allow, nor higher than five for each level that states may have, and seven; so none has a height
/// over the limit.
pub fn the_code_of_a_chart_is_low()
    ensures by_kind { (c : Chart) (p : ℕ) (key : Key) → IsValid c
        → slice_get (layout c) p ≡ Some key
        → slice_index (heights (code_of_chart c).procedures.procs) p ≤ height_bound c.tree key }
    ensures bounded { (c : Chart) (p : ℕ) → IsValid c
        → slice_index (heights (code_of_chart c).procedures.procs) p ≤ 5 * STATE_DEPTH_LIMIT + 7 }
    ensures greatest { (c : Chart) → IsValid c
        → greatest (heights (code_of_chart c).procedures.procs) ≤ 5 * STATE_DEPTH_LIMIT + 7 }
    ensures none_over { (c : Chart) → IsValid c
        → first_over HEIGHT_LIMIT kinds.TooHigh 0 (heights (code_of_chart c).procedures.procs)
        ≡ None }
{}
