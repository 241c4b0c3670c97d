//! What holds of the layout of a chart and of its code.
ghost use Rattle.std.specs.Prelude.{◌≡◌, ◌↔◌, ◌<◌, ◌≤◌, ◌+◌, ◌-◌, ◌*◌, ℕ, List, length, Some};
ghost use Rattle.flow_base.specs.declared.bounds.Bounds.{Bounds};
ghost use Rattle.active_config.specs.Shape.{IsEnd};
ghost use Rattle.active_config.specs.Tree.{Tree, IsTree, state_count};
ghost use Rattle.actions.specs.Runs.{EventWithInputs, Moment};
ghost use Rattle.checked_chart.specs.Chart.{Chart, Trans};
ghost use Rattle.checked_chart.specs.Reached.{ChartPairs};
ghost use Rattle.checked_chart.specs.Valid.{IsValid, AreTrans};
ghost use Rattle.sos_rules.specs.Reactions.{RulesRun};
ghost use Rattle.code_language.specs.Code.{fetch};
ghost use Rattle.code_language.specs.Instrs.{Unless, Result, Ret};
ghost use Rattle.code_language.specs.Reactions.{CodeRun};
ghost use Rattle.chart_code.specs.Compiled.{Compiled, ListsCompiled};
ghost use Rattle.chart_code.specs.Bodies.{procedures_of, code_of_chart};
ghost use Rattle.chart_code.specs.Ends.{end_of};
ghost use Rattle.chart_code.specs.Keys.{layout};
ghost use Rattle.chart_code.specs.Places.{numbers, list_numbers, total, parts_total};
ghost use Rattle.chart_code.specs.Places.{below_total, reached_total};
ghost use Rattle.chart_code.specs.ReachedJunctions.{reached, AreReached};

/// The states strictly below a state are those that follow it, up to its end, and no other number
/// is its end.
pub fn states_below_a_state_follow_it()
    ensures end { (t : Tree) (s : ℕ) → IsTree t → s < state_count t → IsEnd t s (end_of t s) }
    ensures only { (t : Tree) (s e : ℕ) → IsTree t → s < state_count t → IsEnd t s e
        → e ≡ end_of t s }
{}

/// The listed junctions of a list are those that are reached from it, each once, and each is a
/// junction of the chart.
pub fn reached_junctions_are_listed()
    ensures { (c : Chart) (list : List Trans) → IsValid c → AreTrans c list
        → AreReached c list (reached c list) }
{}

/// There are as many procedures as arithmetic says: the end mark, thirteen for each state, one for
/// each part of a transition, three for each state below another, and one for each junction that is
/// reached from a list, of which a valid chart has no more than it has pairs of a list and a
/// transition. Those that process states come last, the last state first.
pub fn the_count_of_procedures()
    ensures listed { (c : Chart) → length (layout c) ≡ total c }
    ensures count { (c : Chart) → length (procedures_of c).procs ≡ total c }
    ensures sum { (c : Chart) → total c ≡ 1 + 13 * state_count c.tree + parts_total c
        + 3 * below_total c + reached_total c }
    ensures pairs { (c : Chart) (count : ℕ) → IsValid c → ChartPairs c count
        → reached_total c ≤ count }
    ensures process { (c : Chart) (s : ℕ) → s < state_count c.tree
        → (numbers c).process s ≡ total c - 1 - s }
{}

/// The results that the code of a valid chart returns and tests are few: each is below 3 + the
/// number of its states.
pub fn the_results_of_code_are_few()
    ensures returned { (c : Chart) (p i r : ℕ) → IsValid c
        → fetch (procedures_of c) p i ≡ Some (Ret r) → r < 3 + state_count c.tree }
    ensures tested { (c : Chart) (p i n r : ℕ) → IsValid c
        → fetch (procedures_of c) p i ≡ Some (Unless n (Result r)) → r < 3 + state_count c.tree }
{}

/// In the procedures of a valid chart each stands at its number.
pub fn each_procedure_stands_at_its_number()
    ensures states { (c : Chart) → IsValid c → Compiled c (procedures_of c) (numbers c) }
    ensures lists { (c : Chart) → IsValid c
        → ListsCompiled c (procedures_of c) (numbers c) (list_numbers c) }
{}

/// The code of a valid chart has the runs of the chart and no others: for all bounds, events with
/// inputs and moments.
pub fn the_code_of_a_chart_runs_as_the_rules()
    ensures { (c : Chart) → IsValid c
        → (b : Bounds) (events : List EventWithInputs) (moments : List Moment)
        → RulesRun c b events moments ↔ CodeRun (code_of_chart c) b events moments }
{}
