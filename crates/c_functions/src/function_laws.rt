//! What holds of the states in the struct, and of the functions of procedures.
ghost use Rattle.std.specs.Prelude.{◌≡◌, ℕ, ◌<◌, ◌≤◌, ◌^◌, length, slice_set, Option, Some, None, Bool};
ghost use Rattle.std.specs.Prelude.{true, suc, ◌+◌, ◌*◌, List, []};
ghost use Rattle.active_config.specs.Tree.{Tree, state_count, parent_of, comp_of, is_or};
ghost use Rattle.active_config.specs.Marks.{Configuration, mark_count};
ghost use Rattle.c_subset.specs.Trees.{Block, File};
ghost use Rattle.c_subset.specs.declared.trees.Width.{Width};
ghost use Rattle.c_subset.specs.Meaning.{bits, CValue, one_if, Store, Locals};
ghost use Rattle.c_subset.specs.Running.{Calls, Returns, call, no_values};
ghost use Rattle.flow_base.specs.declared.bounds.Bounds.{Bounds};
ghost use Rattle.actions.specs.declared.expr.Value.{Value};
ghost use Rattle.actions.specs.Runs.{EventWithInputs, Moment, AreInputValues};
ghost use Rattle.actions.specs.World.{World};
ghost use Rattle.actions.specs.Work.{Now};
ghost use Rattle.code_language.specs.Code.{Code};
ghost use Rattle.code_language.specs.Machine.{run};
ghost use Rattle.code_language.specs.Reactions.{first_frame, program_of, CodeRun, Leads};
ghost use Rattle.std.specs.List.{AllByRecursion};
ghost use Rattle.code_language.specs.WellFormed.{IsCode};
ghost use Rattle.code_language.specs.Ahead.{IsOver};
ghost use Rattle.code_language.specs.Moments.{HasStateNames, IsMoment};
ghost use Rattle.c_functions.specs.Claims.{Has, ShowsActive};
ghost use Rattle.c_functions.specs.States.{States, Shows, or_parent, c_on, c_bare, last_by};
ghost use Rattle.c_functions.specs.States.{choose_child, set_flag};
ghost use Rattle.c_functions.specs.Statements.{CMemory, Block as Body};
ghost use Rattle.c_functions.specs.Runs.{Stands};
ghost use Rattle.c_functions.specs.Written.{AreWritten};
ghost use Rattle.c_functions.specs.Files.{Represents, shape_of, functions_c};
ghost use Rattle.c_functions.specs.Moments.{HasSmallResults, BeginsWith, EndsAsCode, MayEndIn};
ghost use Rattle.c_functions.specs.Plans.{Shape, Tests};
ghost use Rattle.c_functions.specs.Failing.{AfterIsRight};
ghost use Rattle.c_functions.specs.Inputs.{with_inputs};
ghost use Rattle.c_functions.specs.Starts.{file_of, HasShape, AllGiven, RunsOn, Refuses};
ghost use Rattle.c_functions.specs.Layout.{Layout, IsLayout, HoldsStates, Changes, on_c, bare_c};
ghost use Rattle.c_functions.specs.Layout.{last_c, put_number, put_bit, layout_after};

/// In a struct that holds the fields of states, the tests of states give what the fields tell,
/// without undefined behaviour, where int has at most 32 bits. So where the fields show which
/// states are active, they are the tests that the C of expressions asks for.
pub fn tests_of_states_give_which_are_active()
    ensures on { (int : Width) (s : Store) (l : Locals) (t : Tree) (n : ℕ → ℕ) (L : Layout)
        (st : States) (x : ℕ) → bits int ≤ 32 → IsLayout t n L → HoldsStates t L st s →
        x < state_count t →
        Has int s l (on_c t L n x) (one_if (c_on t n x st)) }
    ensures bare { (int : Width) (s : Store) (l : Locals) (t : Tree) (n : ℕ → ℕ) (L : Layout)
        (st : States) (x : ℕ) → bits int ≤ 32 → IsLayout t n L → HoldsStates t L st s →
        x < state_count t →
        Has int s l (bare_c t L n x) (one_if (c_bare t n x st)) }
    ensures last { (int : Width) (s : Store) (l : Locals) (t : Tree) (n : ℕ → ℕ) (L : Layout)
        (st : States) (p x : ℕ) → IsLayout t n L → HoldsStates t L st s →
        is_or (comp_of t p) ≡ true →
        x < state_count t → Has int s l (last_c L n p x) (one_if (last_by n st x (Some p))) }
    ensures active { (int : Width) (s : Store) (t : Tree) (n : ℕ → ℕ) (L : Layout) (st : States)
        (marks : Configuration) → bits int ≤ 32 → IsLayout t n L → HoldsStates t L st s →
        Shows t n st marks → mark_count marks ≡ state_count t → ShowsActive int
        (on_c t L n) marks s }
{}

/// The statements of a change of states change one field, so that the struct holds the changed
/// fields of states, without undefined behaviour, where int has at most 32 bits.
pub fn changes_of_states_change_the_struct()
    ensures chooses { (int : Width) (calls : Calls) (k : ℕ) (t : Tree) (n : ℕ → ℕ) (L : Layout)
        (st : States) (p i : ℕ) (rest : Block) (s : Store) (l : Locals) → IsLayout t n L →
        HoldsStates t L st s →
        is_or (comp_of t p) ≡ true → p < length st.chosen → i < 2 ^ bits L.numbers →
        Changes int calls k t L (choose_child p i st) (L.chosen p)
        (put_number L (L.chosen p) i rest) rest s l }
    ensures keeps { (int : Width) (calls : Calls) (k : ℕ) (t : Tree) (n : ℕ → ℕ) (L : Layout)
        (st : States) (p i : ℕ) (rest : Block) (s : Store) (l : Locals) → IsLayout t n L →
        HoldsStates t L st s →
        is_or (comp_of t p) ≡ true → p < length st.kept → i < 2 ^ bits L.numbers →
        Changes int calls k t L (record st { kept = slice_set st.kept p i }) (L.kept p)
        (put_number L (L.kept p) i rest)
        rest s l }
    ensures turns { (int : Width) (calls : Calls) (k : ℕ) (t : Tree) (n : ℕ → ℕ) (L : Layout)
        (st : States) (x : ℕ) (b : Bool) (rest : Block) (s : Store) (l : Locals) → bits int ≤ 32
        → IsLayout t n L →
        HoldsStates t L st s → x < state_count t → or_parent t (parent_of t x) ≡ None →
        x < length st.flags → Changes int calls k t L (set_flag x b st) (L.word x)
        (put_bit L x b rest) rest s l }
{}

/// There is such a layout, for numbers of children of 16 bits, after any number of fields.
pub fn states_have_places()
    ensures { (t : Tree) (n : ℕ → ℕ) (fields : ℕ) → ((x : ℕ) → x < state_count t → n x < 2 ^ 16) →
        IsLayout t n (layout_after t fields) }
{}

/// The function of a procedure of well-formed code, called from outside in a struct that shows a
/// world, returns within twice the fuel of the run and three more, where int has at most 32 bits:
/// it is never wrong. Twice, because a noted procedure is called through one more function. The
/// call leaves a struct that shows the moment to which the run leads, and returns a result below
/// BAD, or BAD where the moment has a fault. So it is where the run isn't ended by a bound that
/// isn't tested, `out[]` has room for what it emits, and the result of each procedure that can
/// fail is tested.
pub fn functions_end_as_code()
    ensures { (k : Code) (T : Tests) (b : Bounds) (room : ℕ) (bodies : ℕ → Body) (file : File)
        (int : Width) (fuel p : ℕ) (now : Now) (m : CMemory) (w : World) (s : Store) → IsCode k →
        HasStateNames k → HasSmallResults k → AfterIsRight T k →
        AreWritten k.tree (λ x. suc x) k.procedures bodies →
        BeginsWith file (functions_c (shape_of k T b room) bodies) → bits int ≤ 32 →
        IsMoment k b (first_frame p w now) →
        ((moment : Moment) → Leads (program_of k b) (first_frame p w now) moment →
        MayEndIn T room moment) →
        IsOver (run (program_of k b) fuel (first_frame p w now)) →
        Stands k.tree (λ x. suc x) m w → Represents (shape_of k T b room) None m s → m.notes ≡ [] →
        EndsAsCode k T b room file int (2 * fuel + 3) p now (first_frame p w now) s }
{}

/// The file of well-formed code runs as the code: from every struct of its type, whatever it holds,
/// the first values are stored, then those that are given to inputs, and the start and then each
/// reaction return, and tell whether there was a fault, where int has at most 32 bits. So it is the
/// run of the code whose inputs have the given values as their first ones. After each call the
/// struct is one of its type, and shows the moment of that run: active states, remembered
/// children, data, outputs, used steps where they are counted, the fault, and whether the run goes
/// on. So it is where no moment has the fault of a bound that isn't tested, `out[]` has room for
/// what each puts out, and the result of each procedure that can fail is tested. A struct without
/// values is such a struct, and what any call leaves of one is one, too; so a run can be begun anew
/// at any time.
pub fn files_run_as_code()
    ensures runs { (k : Code) (T : Tests) (b : Bounds) (room : ℕ) (bodies : ℕ → Body) (int : Width)
        (s : Store) (given : List (Option Value)) (events : List EventWithInputs)
        (moments : List Moment) → IsCode k → HasStateNames k → HasSmallResults k →
        AreWritten k.tree (λ x. suc x) k.procedures bodies → bits int ≤ 32 →
        AfterIsRight T k → HasShape (shape_of k T b room) s →
        AreInputValues k.names 0 given → AllGiven k.names events →
        CodeRun (record k { names = with_inputs given k.names }) b events moments →
        AllByRecursion (MayEndIn T room) moments →
        RunsOn (shape_of k T b room) (file_of k T b room bodies) int s given events moments }
    ensures unset { (k : Code) (T : Tests) (b : Bounds) (room : ℕ) (bodies : ℕ → Body) →
        HasShape (shape_of k T b room) (no_values (file_of k T b room bodies)) }
    ensures kept { (K : Shape) (file : File) (int : Width) (fuel f : ℕ) (args : List CValue)
        (s after : Store) (x : CValue) → call file int fuel f args s ≡ Returns after x →
        HasShape K s → HasShape K after }
{}

/// The file of well-formed code refuses, for every 32-bit number as the event: any event where no
/// run goes on; in a run, a number that is neither that of an input event nor that of a tick, which
/// is told as a fault of its own and ends the run; and the start where a run has begun and the first
/// values weren't stored since. Where it refuses, the call returns false, and nothing else in the
/// struct changes.
pub fn files_refuse_what_is_no_event()
    ensures { (k : Code) (T : Tests) (b : Bounds) (room : ℕ) (bodies : ℕ → Body) (int : Width) →
        IsCode k → bits int ≤ 32 →
        Refuses (shape_of k T b room) (file_of k T b room bodies) int }
{}
