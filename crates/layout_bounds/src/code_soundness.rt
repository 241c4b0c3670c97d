//! What holds of the code of every valid chart: it is sound, and it has few procedures.
ghost use Rattle.std.specs.Prelude.{◌≡◌, ◌≤◌, ◌+◌, ◌*◌, ℕ, None, true, false, length};
ghost use Rattle.active_config.specs.Tree.{state_count};
ghost use Rattle.checked_chart.specs.Chart.{Chart};
ghost use Rattle.checked_chart.specs.Counts.{transition_count};
ghost use Rattle.checked_chart.specs.Reached.{ChartPairs};
ghost use Rattle.checked_chart.specs.Valid.{IsValid};
ghost use Rattle.code_language.specs.Sound.{AreProcs};
ghost use Rattle.code_language.specs.Tables.{IsTable};
ghost use Rattle.code_language.specs.WellFormed.{known_of, procs_fault, starts_known, too_many};
ghost use Rattle.chart_code.specs.Bodies.{code_of_chart};
ghost use Rattle.layout_bounds.specs.FilledBlocks.{filled_blocks};

/// The code of a valid chart has no fault in its procedures: each names what is there,
/// passes over no end, calls lower ones alone, has the right types, and ends in a return. Those of
/// the start and of a reaction are among them, its tables are right, and it has neither too many
/// procedures nor too many instructions in one.
pub fn the_code_of_a_chart_is_sound()
    ensures sound { (c : Chart) → IsValid c
        → AreProcs (known_of (code_of_chart c)) 0 (code_of_chart c).procedures.procs }
    ensures no_fault { (c : Chart) → IsValid c
        → procs_fault (known_of (code_of_chart c)) 0 (code_of_chart c).procedures.procs ≡ None }
    ensures starts { (c : Chart) → IsValid c → starts_known (code_of_chart c).procedures ≡ true }
    ensures table { (c : Chart) → IsValid c
        → IsTable (code_of_chart c).tree (code_of_chart c).names }
    ensures few { (c : Chart) → IsValid c → too_many (code_of_chart c).procedures.procs ≡ false }
{}

/// How many procedures the code of a valid chart has at most: 80 for each state, one for each pair
/// of a list and a transition, two for each action that isn't empty, one for each transition, and
/// eight more.
pub fn the_code_of_a_chart_has_few_procedures()
    ensures { (c : Chart) (pairs : ℕ) → IsValid c → ChartPairs c pairs
        → length (code_of_chart c).procedures.procs
        ≤ 80 * state_count c.tree + pairs + 2 * filled_blocks c + transition_count c + 8 }
{}
