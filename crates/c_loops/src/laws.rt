//! What holds of files with loops.
ghost use Rattle.std.specs.Prelude.{◌≡◌, ℕ, suc, List, Option};
ghost use Rattle.actions.specs.declared.expr.Value.{Value};
ghost use Rattle.actions.specs.Runs.{EventWithInputs, Moment};
ghost use Rattle.c_subset.specs.Trees.{File};
ghost use Rattle.c_subset.specs.declared.trees.Width.{Width};
ghost use Rattle.c_subset.specs.Meaning.{CValue, Store};
ghost use Rattle.c_subset.specs.Running.{Returns, call};
ghost use Rattle.c_functions.specs.Plans.{Shape};
ghost use Rattle.c_functions.specs.Starts.{RunsOn, Refuses};
ghost use Rattle.c_loops.specs.Loops.{with_loops};

/// A call that returns in a file returns the same in the file with loops, and leaves the same
/// struct, with one more unit of fuel: a `while` needs a turn where the call needed none. So a
/// file with loops runs as the file does, and refuses what the file refuses.
pub fn loops_run_as_calls()
    ensures calls { (n : ℕ) (file : File) (int : Width) (k f : ℕ) (xs : List CValue) (s after : Store)
        (x : CValue) → call file int k f xs s ≡ Returns after x →
        call (with_loops n file) int (suc k) f xs s ≡ Returns after x }
    ensures runs { (n : ℕ) (K : Shape) (file : File) (int : Width) (s : Store)
        (given : List (Option Value)) (events : List EventWithInputs) (moments : List Moment)
        → RunsOn K file int s given events moments
        → RunsOn K (with_loops n file) int s given events moments }
    ensures refuses { (n : ℕ) (K : Shape) (file : File) (int : Width) → Refuses K file int
        → Refuses K (with_loops n file) int }
{}
