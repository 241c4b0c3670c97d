//! What holds of files in which calls are replaced by bodies.
ghost use Rattle.std.specs.Prelude.{◌≡◌, ℕ, List, Option};
ghost use Rattle.actions.specs.declared.expr.Value.{Value};
ghost use Rattle.actions.specs.Runs.{EventWithInputs, Moment};
ghost use Rattle.c_subset.specs.Trees.{File, Function};
ghost use Rattle.c_subset.specs.declared.trees.Width.{Width};
ghost use Rattle.c_subset.specs.Meaning.{CValue, Store};
ghost use Rattle.c_subset.specs.Running.{Returns, call};
ghost use Rattle.c_functions.specs.Plans.{Shape};
ghost use Rattle.c_functions.specs.Starts.{RunsOn, Refuses};
ghost use Rattle.c_inlined.specs.Files.{IsInlinedFile};
ghost use Rattle.c_inlined.specs.Inlined.{FileIsInlined, with_function};

/// A call that returns in a file returns the same in the file where calls in one function are
/// replaced by bodies, and leaves the same struct, with the same fuel. So that file runs as the
/// file does, and refuses what the file refuses.
pub fn inlined_functions_run_as_before()
    ensures calls { (file : File) (p : ℕ) (f' : Function) → FileIsInlined file p f' →
        (int : Width) (k f : ℕ) (xs : List CValue) (s after : Store) (x : CValue) →
        call file int k f xs s ≡ Returns after x →
        call (with_function file p f') int k f xs s ≡ Returns after x }
    ensures runs { (file : File) (p : ℕ) (f' : Function) → FileIsInlined file p f' →
        (K : Shape) (int : Width) (s : Store) (given : List (Option Value))
        (events : List EventWithInputs) (moments : List Moment) →
        RunsOn K file int s given events moments
        → RunsOn K (with_function file p f') int s given events moments }
    ensures refuses { (file : File) (p : ℕ) (f' : Function) → FileIsInlined file p f' →
        (K : Shape) (int : Width) → Refuses K file int → Refuses K (with_function file p f') int }
{}

/// So it is with a file in which calls are replaced in some functions, one after the other.
pub fn inlined_files_run_as_before()
    ensures calls { (file made : File) → IsInlinedFile file made →
        (int : Width) (k f : ℕ) (xs : List CValue) (s after : Store) (x : CValue) →
        call file int k f xs s ≡ Returns after x → call made int k f xs s ≡ Returns after x }
    ensures runs { (file made : File) → IsInlinedFile file made →
        (K : Shape) (int : Width) (s : Store) (given : List (Option Value))
        (events : List EventWithInputs) (moments : List Moment) →
        RunsOn K file int s given events moments → RunsOn K made int s given events moments }
    ensures refuses { (file made : File) → IsInlinedFile file made →
        (K : Shape) (int : Width) → Refuses K file int → Refuses K made int }
{}
