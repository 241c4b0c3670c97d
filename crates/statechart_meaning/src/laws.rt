//! The laws of statecharts.
ghost use Rattle.std.specs.Prelude.{◌≡◌, ℕ, List, ◌∷◌};
ghost use Rattle.chart_tree.specs.Trees.{Chart};
ghost use Rattle.statechart_meaning.specs.Expand.{expand};
ghost use Rattle.statechart_meaning.specs.Names.{joined};
ghost use Rattle.statechart_meaning.specs.Parts.{AreParts};
ghost use Rattle.statechart_meaning.specs.Plain.{plain};

/// A chart without any of the new words, read as a statechart, stands for itself.
pub fn a_plain_chart_stands_for_itself()
    ensures { (c : Chart) → expand (plain c) ≡ c }
{}

/// Different lists of names without two underscores side by side, and without one at the end, are
/// joined to different names: so no two names that are made of paths are the same.
pub fn joined_names_are_distinct()
    ensures { (x y : List ℕ) (xs ys : List (List ℕ)) → AreParts (x ∷ xs) → AreParts (y ∷ ys)
        → joined (x ∷ xs) ≡ joined (y ∷ ys) → x ∷ xs ≡ y ∷ ys }
{}
