//! What functions promise that only read the struct.
ghost use Rattle.std.specs.Prelude.{◌≡◌, ℕ, Bool, true, List};
ghost use Rattle.c_subset.specs.declared.trees.Width.{Width};
ghost use Rattle.c_subset.specs.Trees.{File};
ghost use Rattle.c_subset.specs.Meaning.{CValue, Store};
ghost use Rattle.c_subset.specs.Running.{Returns, call};
ghost use Rattle.c_readers.specs.Readers.{OnlyRead};

/// A call of a function that only reads the struct leaves the struct as it was, with so much fuel,
/// for these arguments and from that struct.
pub fn what_only_reads_leaves_the_struct()
    ensures { (file : File) (only_reads : ℕ → Bool) (int : Width) (k f : ℕ) (xs : List CValue)
        (s after : Store) (x : CValue) → OnlyRead file.functions only_reads → only_reads f ≡ true
        → call file int k f xs s ≡ Returns after x → after ≡ s }
{}
