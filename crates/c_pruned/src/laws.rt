//! What holds of files without what nobody needs.
ghost use Rattle.std.specs.Prelude.{◌≡◌, ℕ, List, Option};
ghost use Rattle.actions.specs.declared.expr.Value.{Value};
ghost use Rattle.actions.specs.Runs.{EventWithInputs, Moment};
ghost use Rattle.c_subset.specs.Trees.{File};
ghost use Rattle.c_subset.specs.declared.trees.Width.{Width};
ghost use Rattle.c_subset.specs.Meaning.{CValue, Store};
ghost use Rattle.c_subset.specs.Running.{Returns, call};
ghost use Rattle.c_functions.specs.Plans.{Shape};
ghost use Rattle.c_functions.specs.Starts.{RunsOn, Refuses};
ghost use Rattle.c_pruned.specs.Pruned.{with_pruned};

/// A call that returns in a file returns the same in the file where each function is pruned, and
/// leaves the same struct, with the same fuel. So that file runs as the file does, and refuses what
/// the file refuses.
pub fn pruned_files_run_as_before()
    ensures calls { (file : File) (int : Width) (k f : ℕ) (xs : List CValue) (s after : Store)
        (x : CValue) → call file int k f xs s ≡ Returns after x →
        call (with_pruned file) int k f xs s ≡ Returns after x }
    ensures runs { (file : File) (K : Shape) (int : Width) (s : Store)
        (given : List (Option Value)) (events : List EventWithInputs) (moments : List Moment)
        → RunsOn K file int s given events moments
        → RunsOn K (with_pruned file) int s given events moments }
    ensures refuses { (file : File) (K : Shape) (int : Width) → Refuses K file int
        → Refuses K (with_pruned file) int }
{}
