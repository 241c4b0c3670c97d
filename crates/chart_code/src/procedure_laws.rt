//! What holds of code in which the procedures of a chart stand.
ghost use Rattle.std.specs.Prelude.{◌≡◌, ◌↔◌, ℕ, List};
ghost use Rattle.flow_base.specs.declared.bounds.Bounds.{Bounds};
ghost use Rattle.actions.specs.Runs.{EventWithInputs, Moment};
ghost use Rattle.checked_chart.specs.Chart.{Chart, Trans};
ghost use Rattle.checked_chart.specs.Valid.{IsValid};
ghost use Rattle.sos_rules.specs.Reactions.{RulesRun};
ghost use Rattle.sos_rules.specs.Rules.{upto};
ghost use Rattle.code_language.specs.Code.{Code, Procedures};
ghost use Rattle.code_language.specs.Reactions.{CodeRun};
ghost use Rattle.chart_code.specs.Compiled.{Compiled, ListsCompiled};
ghost use Rattle.chart_code.specs.Kinds.{program, AllDo};
ghost use Rattle.chart_code.specs.ListProcedures.{Search};
ghost use Rattle.chart_code.specs.Numbers.{Numbers, TransNumbers, ListNumbers};
ghost use Rattle.chart_code.specs.SearchFrames.{SearchesFrom};
ghost use Rattle.chart_code.specs.SearchParts.{Told, told_meaning, ListStands};

/// A list is searched for any continuation. In all code in which the procedures of a list and of
/// its junctions stand, and whose guards and condition actions do their work, a new frame of the
/// list's procedure does the search of the list by the rules, at every height of derivations. It
/// ends with a result of its frame, at a new frame of the procedure of the firing, or at one of the
/// end procedure; below that one lie the frames of the search, and then those that were there.
/// Nothing is assumed of the procedures of firings and of the end.
pub fn a_list_is_searched_for_any_continuation()
    ensures { (c : Chart) (b : Bounds) (k : Procedures) (S : Search) (told : Told) (height proc : ℕ)
        (list : List Trans) (numbers : List TransNumbers) (junction_numbers : ℕ → List TransNumbers)
        → ListStands c b k S told height proc list numbers junction_numbers
        → SearchesFrom (program c b k) (told_meaning c b k S told height) S (upto c b height) proc list }
{}

/// Where the procedures of a valid chart stand at their numbers, each of them does its piece of
/// work of the rules: it ends in the same world, in the way that is told of its kind, or with the
/// same fault.
pub fn procedures_do_the_work_of_the_rules()
    ensures { (c : Chart) (k : Procedures) (N : Numbers) (M : ListNumbers) → IsValid c
        → Compiled c k N → ListsCompiled c k N M
        → (b : Bounds) (height : ℕ) → AllDo (program c b k) c N (upto c b height) }
{}

/// Code that has the states and the names of a valid chart, and in which the chart's procedures
/// stand at their numbers, has the runs of the chart and no others: for all bounds, events with
/// inputs and moments.
pub fn code_runs_as_the_rules()
    ensures { (c : Chart) (k : Code) (N : Numbers) (M : ListNumbers) → IsValid c
        → k.tree ≡ c.tree → k.names ≡ c.names
        → Compiled c k.procedures N → ListsCompiled c k.procedures N M
        → (b : Bounds) (events : List EventWithInputs) (moments : List Moment)
        → RulesRun c b events moments ↔ CodeRun k b events moments }
{}
