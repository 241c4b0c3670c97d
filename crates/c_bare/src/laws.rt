//! What holds of files with bare functions.
ghost use Rattle.std.specs.Prelude.{◌≡◌, ℕ, Bool, false, List, Option};
ghost use Rattle.actions.specs.declared.expr.Value.{Value};
ghost use Rattle.actions.specs.Runs.{EventWithInputs, Moment};
ghost use Rattle.c_subset.specs.Trees.{File};
ghost use Rattle.c_subset.specs.declared.trees.Width.{Width};
ghost use Rattle.c_subset.specs.Meaning.{CValue, Store};
ghost use Rattle.c_subset.specs.Running.{Returns, call};
ghost use Rattle.c_functions.specs.Plans.{Shape, react_function};
ghost use Rattle.c_functions.specs.Starts.{RunsOn, Refuses};
ghost use Rattle.c_bare.specs.Bare.{AreNeedless, handed, with_bare};
ghost use Rattle.c_bare.specs.Needs.{is_bare};

/// A call that returns in a file returns the same in the file where functions that need no
/// parameter have none, and leaves the same struct, with the same fuel, where a bare function is
/// handed nothing. So that file runs as the file does, and refuses what the file refuses, if the
/// reaction, which is called from outside, is not bare.
pub fn bare_functions_run_as_before()
    ensures calls { (flags : List Bool) (file : File) → AreNeedless flags file.functions →
        (int : Width) (k f : ℕ) (xs : List CValue) (s after : Store) (x : CValue) →
        call file int k f xs s ≡ Returns after x →
        call (with_bare flags file) int k f (handed flags f xs) s ≡ Returns after x }
    ensures runs { (flags : List Bool) (file : File) → AreNeedless flags file.functions →
        (K : Shape) → is_bare flags (react_function K) ≡ false → (int : Width) (s : Store)
        (given : List (Option Value)) (events : List EventWithInputs) (moments : List Moment)
        → RunsOn K file int s given events moments
        → RunsOn K (with_bare flags file) int s given events moments }
    ensures refuses { (flags : List Bool) (file : File) → AreNeedless flags file.functions →
        (K : Shape) → is_bare flags (react_function K) ≡ false → (int : Width) →
        Refuses K file int → Refuses K (with_bare flags file) int }
{}
