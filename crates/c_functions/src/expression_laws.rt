//! What the C of an expression and of an assignment gives.
ghost use Rattle.std.specs.Prelude.{◌≡◌, ℕ, suc, ◌≤◌, List, Ok, None, Some, IsTrue, ℤ, slice_get};
ghost use Rattle.flow_base.specs.declared.fault.Fault.{Fault};
ghost use Rattle.fixed_point.specs.declared.num.Num.{Num as Number};
ghost use Rattle.fixed_point.specs.declared.scale.Scale.{Scale};
ghost use Rattle.fixed_point.specs.declared.fitting.Mode.{Mode};
ghost use Rattle.fixed_point.specs.Scales.{fitted, is_in_range};
ghost use Rattle.active_config.specs.Marks.{Configuration};
ghost use Rattle.actions.specs.declared.expr.Value.TheVariants as values;
ghost use Rattle.actions.specs.declared.names.Sort.TheVariants as sorts;
ghost use Rattle.actions.specs.declared.sort.ExprSort.{ExprSort};
ghost use Rattle.actions.specs.declared.sort.ExprSort.TheVariants as kinds;
ghost use Rattle.actions.specs.Data.{Datum, datum, HaveTheirSorts};
ghost use Rattle.actions.specs.Exprs.{Expr};
ghost use Rattle.actions.specs.Sorts.{sort_of, assignment_fault};
ghost use Rattle.actions.specs.Values.{value_of, scope_at};
ghost use Rattle.c_subset.specs.Trees.{CExpr, Block, File};
ghost use Rattle.c_subset.specs.declared.trees.Width.{Width};
ghost use Rattle.c_subset.specs.Meaning.{bits, CValue, Store, Locals, converted, gives};
ghost use Rattle.c_subset.specs.Running.{Calls, Returns, outcome, call};
ghost use Rattle.c_subset.specs.Helpers.{floor_function};
ghost use Rattle.c_functions.specs.Code.{CCode, Goes, Faults, ending, written, Divides};
ghost use Rattle.c_functions.specs.Code.{Returning};
ghost use Rattle.c_functions.specs.Assigning.{stores_of, assigned_block, assigned_by};
ghost use Rattle.c_functions.specs.Assigning.{EndsAssigned, CanAssign};
ghost use Rattle.c_functions.specs.Translation.{flat};
ghost use Rattle.c_functions.specs.Claims.{ShowsData, ShowsActive, EndsAs, field_type};
ghost use Rattle.c_functions.specs.Storing.{stored_c, StoresAs};

/// For every expression with a sort, in a struct that shows the world's data, with tests that give
/// which states are active, and for every width of int, the C ends as the value does: in its fault,
/// or with the value, and without undefined behaviour.
pub fn expressions_have_their_values()
    ensures { (int : Width) (tests : ℕ → CExpr) (s : Store) (vals : List Datum)
        (marks : Configuration)
        (e : Expr) (n : ℕ) (l : Locals) (sort : ExprSort) → HaveTheirSorts vals → ShowsData vals s →
        ShowsActive int tests marks s → sort_of (scope_at vals marks) e ≡ Ok sort →
        EndsAs int s n (flat (scope_at vals marks) tests n e) l (value_of vals marks e) }
{}

/// An assignment of a number that has no fault of its own: its code faults exactly where the number
/// overflows the datum, and else goes on and gives what is kept, without undefined behaviour, where
/// int has at most 64 bits. What is kept is stored in the datum's field as it is.
pub fn assignments_store_what_is_kept()
    ensures kept { (int : Width) (tests : ℕ → CExpr) (s : Store) (vals : List Datum)
        (marks : Configuration) (e : Expr) (n d : ℕ) (l : Locals) (frac size : ℕ) (scale : Scale)
        (mode : Mode) (v : Number) → HaveTheirSorts vals → ShowsData vals s →
        ShowsActive int tests marks s → bits int ≤ 64 →
        sort_of (scope_at vals marks) e ≡ Ok (kinds.Number frac size) →
        assignment_fault (sorts.Number scale) (kinds.Number frac size) ≡ None →
        value_of vals marks e ≡ Ok (values.Number v) →
        StoresAs int s n l d
        (stored_c d frac size scale mode (flat (scope_at vals marks) tests n e))
        (fitted v scale mode) }
    ensures field { (scale : Scale) (m : ℤ) → IsTrue (is_in_range scale m) →
        converted (field_type (sorts.Number scale)) m ≡ gives (field_type (sorts.Number scale)) m }
{}

/// The statements that are written for code do what it does: where it goes on, the statements after
/// it follow with its locals, and where it faults, the function returns as it does for that fault.
/// A file in which flow_divW stands has the calls that this needs.
pub fn statements_do_what_code_does()
    ensures goes { (int : Width) (calls : Calls) (k : ℕ) (helper : Width → ℕ)
        (faulted : Fault → Block)
        (after : Fault → Store → Store) (bad : CValue) (s : Store) → Divides calls helper s →
        Returning int calls k faulted after bad s → (code : CCode) (rest : Block) (l m : Locals) →
        ending int s l code ≡ Goes m →
        outcome int calls k (written helper faulted code rest) s l ≡ outcome int calls k rest s m }
    ensures faults { (int : Width) (calls : Calls) (k : ℕ) (helper : Width → ℕ)
        (faulted : Fault → Block)
        (after : Fault → Store → Store) (bad : CValue) (s : Store) → Divides calls helper s →
        Returning int calls k faulted after bad s → (code : CCode) (rest : Block) (l : Locals)
        (x : Fault) →
        ending int s l code ≡ Faults x →
        outcome int calls k (written helper faulted code rest) s l ≡ Returns (after x s) bad }
    ensures divides { (file : File) (int : Width) (k : ℕ) (helper : Width → ℕ) (s : Store) →
        ((w : Width) → slice_get file.functions (helper w) ≡ Some (floor_function w)) →
        Divides (call file int (suc k)) helper s }
{}

/// The statements of an assignment store the value in the datum's field, and then the struct shows
/// the data that the assignment gives; or the function returns with the fault of the assignment.
pub fn assignments_change_the_struct()
    ensures { (int : Width) (tests : ℕ → CExpr) (calls : Calls) (k : ℕ) (helper : Width → ℕ)
        (faulted : Fault → Block) (after : Fault → Store → Store) (bad : CValue) (s : Store)
        (vals : List Datum) (marks : Configuration) (v : ℕ) (e : Expr) (sort : ExprSort) (n : ℕ)
        (rest : Block) (l : Locals) →
        CanAssign int tests calls k helper faulted after bad s vals marks v e sort →
        EndsAssigned (λ u m. outcome int calls k rest u m) after bad v s n l
        (outcome int calls k (assigned_block helper faulted v
        (stores_of v (datum vals v).sort (datum vals v).mode sort
        (flat (scope_at vals marks) tests n e))
        rest) s l)
        (assigned_by vals v (value_of vals marks e)) }
{}
