//! What the names of a header promise, for all charts at once.
ghost use Rattle.std.specs.Prelude.{◌≡◌, ◌≢◌, ◌<◌, ◌^◌, ◌++◌, ℕ, List, [], length, false, true};
ghost use Rattle.std.specs.Prelude.{codes, map, slice_index_or};
ghost use Rattle.std.specs.List.{list_all};
ghost use Rattle.active_config.specs.Tree.{Tree, IsTree, state_count};
ghost use Rattle.actions.specs.Names.{Names};
ghost use Rattle.actions.specs.declared.names.Var.{Var};
ghost use Rattle.chart_lexer.specs.Words.{is_name};
ghost use Rattle.c_subset.specs.declared.trees.CType.{CType};
ghost use Rattle.c_functions.specs.Plans.{Shape};
ghost use Rattle.c_text.specs.declared.kinds.Kind.{Kind};
ghost use Rattle.c_text.specs.Distinct.{AreDistinct, is_keyword};
ghost use Rattle.c_text.specs.Labels.{Labels, labels_for, row_labels, field_labels, local_label};
ghost use Rattle.c_header.specs.Header.{struct_text};
ghost use Rattle.c_header.specs.Paths.{state_label};
ghost use Rattle.c_names.specs.Reserved.{is_reserved};
ghost use Rattle.c_names.specs.Stems.{guard_of_chart, name_of_chart};
ghost use Rattle.c_header.specs.Scope.{HasNamedTree, scope_labels};
ghost use Rattle.c_header.specs.Struct.{DeclaresStruct, IsAny, IsInside, struct_fields, struct_rows};

/// Different states of a chart have different names in C; and all names that its header and its
/// source give at file scope are pairwise different, and different from the name that the header's
/// first lines define.
pub fn names_of_the_header_are_distinct()
    ensures states { (t : Tree) (n : Names) (s u : ℕ) → HasNamedTree t n → state_count t < 2 ^ 64
        → s < state_count t → u < state_count t → state_label t n s ≡ state_label t n u → s ≡ u }
    ensures scope { (chart : List ℕ) (K : Shape) → HasNamedTree K.tree K.names
        → state_count K.tree < 2 ^ 64 → K.procs < 2 ^ 32 → AreDistinct (scope_labels chart K) }
{}

/// No name that the files of a chart give at file scope is one of those of a chart of another name.
pub fn names_of_two_charts_are_different()
    ensures { (one other : List ℕ) (K M : Shape) (i j : ℕ) → is_name one ≡ true
        → is_name other ≡ true → one ≢ other → i < length (scope_labels one K)
        → j < length (scope_labels other M)
        → slice_index_or (scope_labels one K) i [] ≢ slice_index_or (scope_labels other M) j [] }
{}

/// None of these names is a keyword of C99.
pub fn no_name_of_the_header_is_a_keyword()
    ensures { (chart : List ℕ) (K : Shape) (i : ℕ)
        → is_keyword (slice_index_or (scope_labels chart K) i []) ≡ false }
{}

/// None of them is one that C99 keeps for its library.
pub fn no_name_of_the_header_is_reserved()
    ensures { (chart : List ℕ) (K : Shape) (i : ℕ) → is_name chart ≡ true
        → is_reserved (slice_index_or (scope_labels chart K) i []) ≡ false }
{}

/// No field, array or local has a name that C99 keeps for its library, nor has `m`. So none of
/// these names is a macro, neither of `<limits.h>`, `<stdbool.h>` and `<stdint.h>`, which the header
/// includes (7.10, 7.16, 7.18), nor of another header of C99 that stands before it.
pub fn no_name_of_the_struct_is_reserved()
    ensures members { (L : Labels) (i : ℕ) → i < length (row_labels ++ field_labels L)
        → is_reserved (slice_index_or (row_labels ++ field_labels L) i []) ≡ false }
    ensures locals { (kind : Kind) (t : CType) (k : ℕ) → is_reserved (local_label kind t k) ≡ false }
    ensures pointer { is_reserved (codes "m") ≡ false }
{}

/// The name that the header's first lines define, which C replaces wherever it stands, is that of
/// no array, field or local.
pub fn the_name_that_is_replaced_is_no_other()
    ensures members { (chart : List ℕ) (L : Labels) (i : ℕ)
        → i < length (row_labels ++ field_labels L)
        → slice_index_or (row_labels ++ field_labels L) i [] ≢ guard_of_chart chart }
    ensures locals { (chart : List ℕ) (kind : Kind) (t : CType) (k : ℕ)
        → local_label kind t k ≢ guard_of_chart chart }
{}

/// The name by which a compiler is told that functions may call themselves, which is a macro
/// there, is that of no array, field or local.
pub fn the_name_that_is_told_is_no_other()
    ensures members { (chart : List ℕ) (L : Labels) (i : ℕ) → is_name chart ≡ true
        → list_all is_name (map (λ (v : Var). v.name) L.names.vars) ≡ true
        → i < length (row_labels ++ field_labels L)
        → slice_index_or (row_labels ++ field_labels L) i []
        ≢ name_of_chart chart (codes "MAY_RECURSE") }
    ensures locals { (chart : List ℕ) (kind : Kind) (t : CType) (k : ℕ)
        → local_label kind t k ≢ name_of_chart chart (codes "MAY_RECURSE") }
{}

/// The header declares the struct of the file: with its fields and arrays in their order, of their
/// types and sizes, each with a comment. Where the chart and its states have names, no comment of C
/// ends in one of these.
pub fn the_header_declares_the_struct()
    ensures declares { (chart : List ℕ) (K : Shape) → IsTree K.tree
        → DeclaresStruct IsAny (labels_for chart K.names K.tree K.procs) (struct_fields K)
        (struct_rows K) (struct_text chart (labels_for chart K.names K.tree K.procs) K) }
    ensures comments { (chart : List ℕ) (K : Shape) → is_name chart ≡ true
        → HasNamedTree K.tree K.names
        → DeclaresStruct IsInside (labels_for chart K.names K.tree K.procs) (struct_fields K)
        (struct_rows K) (struct_text chart (labels_for chart K.names K.tree K.procs) K) }
{}
