//! What holds of the runs of a file with decided tests.
ghost use Rattle.std.specs.Prelude.{◌≤◌, ℕ, List, Option};
ghost use Rattle.flow_base.specs.declared.bounds.Bounds.{Bounds};
ghost use Rattle.actions.specs.declared.expr.Value.{Value};
ghost use Rattle.actions.specs.Runs.{EventWithInputs, Moment, AreInputValues};
ghost use Rattle.code_language.specs.Code.{Code};
ghost use Rattle.code_language.specs.WellFormed.{IsCode};
ghost use Rattle.c_subset.specs.Trees.{File};
ghost use Rattle.c_subset.specs.declared.trees.Width.{Width};
ghost use Rattle.c_subset.specs.Meaning.{bits, Store};
ghost use Rattle.c_functions.specs.Files.{shape_of};
ghost use Rattle.c_functions.specs.Plans.{Shape, Tests};
ghost use Rattle.c_functions.specs.Statements.{Block as Body};
ghost use Rattle.c_functions.specs.Starts.{file_of, HasShape, AllGiven, RunsOn, Refuses};
ghost use Rattle.c_decided.specs.Decided.{Plan};
ghost use Rattle.c_decided.specs.Made.{FileIsMade};
ghost use Rattle.c_decided_runs.specs.Checks.{ShapeIsChecked};
ghost use Rattle.c_decided_runs.specs.Runs.{IsBetween, RefusesAtOnce};

/// A file with decided tests runs as the file does, from every struct of its type, where the plan
/// fits together between events, and data are given that are inputs.
///
/// What the file refuses at once, without a call of another function, that file refuses so, since
/// the start and the reaction stay as they are. The file of code refuses at once.
pub fn decided_tests_keep_runs()
    ensures runs { (P : Plan) (K : Shape) (file made : File) → FileIsMade P file made →
        IsBetween K P → (int : Width) (s : Store) (given : List (Option Value))
        (events : List EventWithInputs) (moments : List Moment) → HasShape K s →
        AreInputValues K.names 0 given → AllGiven K.names events →
        RunsOn K file int s given events moments → RunsOn K made int s given events moments }
    ensures refuses_at_once { (P : Plan) (K : Shape) (file made : File) → FileIsMade P file made →
        IsBetween K P → (int : Width) → RefusesAtOnce K file int → RefusesAtOnce K made int }
    ensures refuses { (K : Shape) (file : File) (int : Width) → RefusesAtOnce K file int →
        Refuses K file int }
    ensures code { (k : Code) (T : Tests) (b : Bounds) (room : ℕ) (bodies : ℕ → Body) (int : Width)
        → IsCode k → bits int ≤ 32 →
        RefusesAtOnce (shape_of k T b room) (file_of k T b room bodies) int }
{}

/// A plan that is checked fits together between events.
pub fn checked_plans_fit_between()
    ensures { (K : Shape) (P : Plan) → ShapeIsChecked K P → IsBetween K P }
{}
