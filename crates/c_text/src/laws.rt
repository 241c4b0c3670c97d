//! What names promise, for all charts at once.
ghost use Rattle.std.specs.Prelude.{◌≡◌, ◌≢◌, ◌<◌, ◌^◌, ◌++◌, ℕ, List, [], map, length, false};
ghost use Rattle.std.specs.Prelude.{codes, slice_index_or};
ghost use Rattle.actions.specs.declared.names.Var.{Var};
ghost use Rattle.c_subset.specs.declared.trees.CType.{CType};
ghost use Rattle.c_subset.specs.Meaning.{CValue};
ghost use Rattle.c_functions.specs.Plans.{Shape};
ghost use Rattle.c_functions.specs.Starts.{first_values};
ghost use Rattle.c_text.specs.declared.kinds.Kind.{Kind};
ghost use Rattle.c_text.specs.Distinct.{AreDistinct, is_keyword};
ghost use Rattle.c_text.specs.Labels.{Labels, row_labels, field_labels, function_labels};
ghost use Rattle.c_text.specs.Labels.{local_label, labels_for, field_types};

/// The names of the struct's arrays and fields are pairwise different, where those of data are; so
/// are the names of functions; and those of the locals of a function.
pub fn names_are_distinct()
    ensures members { (L : Labels) → L.ors < 2 ^ 32 → L.words < 2 ^ 32
        → AreDistinct (map (λ (v : Var). v.name) L.names.vars)
        → AreDistinct (row_labels ++ field_labels L) }
    ensures functions { (L : Labels) → L.procs < 2 ^ 32 → AreDistinct (function_labels L) }
    ensures locals { (kind : Kind) (t u : CType) (j k : ℕ) → j < 2 ^ 32 → k < 2 ^ 32
        → local_label kind t j ≡ local_label kind u k → (t ≡ u) × (j ≡ k) }
{}

/// No local has the name of a function, nor that of the struct, so none hides these.
pub fn no_local_hides_a_function()
    ensures functions { (L : Labels) (kind : Kind) (t : CType) (k f : ℕ) → k < 2 ^ 32
        → f < length (function_labels L)
        → local_label kind t k ≢ slice_index_or (function_labels L) f [] }
    ensures the_struct { (kind : Kind) (t : CType) (k : ℕ) → k < 2 ^ 32
        → local_label kind t k ≢ codes "m" }
{}

/// No name of an array, a field, a function or a local is a keyword of C99.
pub fn no_name_is_a_keyword()
    ensures members { (L : Labels) (i : ℕ)
        → is_keyword (slice_index_or (row_labels ++ field_labels L) i []) ≡ false }
    ensures functions { (L : Labels) (i : ℕ)
        → is_keyword (slice_index_or (function_labels L) i []) ≡ false }
    ensures locals { (kind : Kind) (t : CType) (k : ℕ) → is_keyword (local_label kind t k) ≡ false }
{}

/// The types of fields are those of the struct of the file, and each field has a name.
pub fn fields_are_those_of_the_struct()
    ensures types { (chart : List ℕ) (K : Shape)
        → field_types (labels_for chart K.names K.tree K.procs)
        ≡ map (λ (x : CValue). x.type) (first_values K) }
    ensures names { (L : Labels) → length (field_labels L) ≡ length (field_types L) }
{}
