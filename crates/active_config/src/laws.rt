//! What holds of every tree and of all marks.
ghost use Rattle.std.specs.Prelude.{
  ◌≡◌,
  ◌≢◌,
  ℕ,
  ◌<◌,
  ◌∷◌,
  List,
  Bool,
  true,
  false,
  reverse,
  Option,
  Some,
  None,
  IsTrue,
};
ghost use Rattle.active_config.specs.Tree.{
  Tree,
  IsTree,
  state_count,
  comp_of,
  parent_of,
  ancestors,
  children_of,
  first_child,
  last_child,
  next_sibling,
  prev_sibling,
  children_from,
  children_back_from,
  is_below,
  is_at_or_below,
};
ghost use Rattle.active_config.specs.declared.comp.Comp.TheVariants.{Or};
ghost use Rattle.active_config.specs.Marks.{
  Configuration,
  mark_count,
  is_on,
  can_mark,
  is_bare,
  with_mark,
  last_of,
  with_last,
  IsConsistent,
};

/// The children of a state are its first child and those that follow, or its last child and those
/// that come before it.
pub fn children_stand_in_order()
    ensures first { (t : Tree) (s : ℕ) → children_of t s ≡ children_from t s (first_child t s) }
    ensures next { (t : Tree) (s x : ℕ) → parent_of t x ≡ Some s →
        children_from t s (Some x) ≡ x ∷ children_from t s (next_sibling t x) }
    ensures last { (t : Tree) (s : ℕ) →
        reverse (children_of t s) ≡ children_back_from t s (last_child t s) }
    ensures previous { (t : Tree) (s x : ℕ) → parent_of t x ≡ Some s →
        children_back_from t s (Some x) ≡ x ∷ children_back_from t s (prev_sibling t x) }
{}

/// Marking a state that can be marked keeps marks consistent, and so do clearing a bare one and
/// keeping a child of an OR. Marking and clearing change whether that state is active, and no
/// other.
pub fn marks_stay_consistent()
    ensures mark { (t : Tree) (marks : Configuration) (s : ℕ) → IsConsistent t marks →
        IsTrue (can_mark t s marks) → IsConsistent t (with_mark s true marks) }
    ensures clear { (t : Tree) (marks : Configuration) (s : ℕ) → IsConsistent t marks →
        IsTrue (is_bare t s marks) → IsConsistent t (with_mark s false marks) }
    ensures here { (marks : Configuration) (s : ℕ) (on : Bool) → s < mark_count marks →
        is_on s (with_mark s on marks) ≡ on }
    ensures others { (marks : Configuration) (s x : ℕ) (on : Bool) → x ≢ s →
        is_on x (with_mark s on marks) ≡ is_on x marks }
    ensures keep { (t : Tree) (marks : Configuration) (s p : ℕ) → IsConsistent t marks →
        parent_of t s ≡ Some p → comp_of t p ≡ Or → IsConsistent t (with_last t s marks) }
{}

/// After `keep` the parent of the state remembers it. What any other state remembers stays, and no
/// state becomes active or inactive. Marking and clearing leave what is remembered.
pub fn keeping_changes_one_entry()
    ensures here { (t : Tree) (marks : Configuration) (s p : ℕ) → IsConsistent t marks →
        p < state_count t → parent_of t s ≡ Some p → last_of p (with_last t s marks) ≡ Some s }
    ensures others { (t : Tree) (marks : Configuration) (s p x : ℕ) → parent_of t s ≡ Some p →
        x ≢ p → last_of x (with_last t s marks) ≡ last_of x marks }
    ensures active { (t : Tree) (marks : Configuration) (s x : ℕ) →
        is_on x (with_last t s marks) ≡ is_on x marks }
    ensures marking { (marks : Configuration) (s x : ℕ) (on : Bool) →
        last_of x (with_mark s on marks) ≡ last_of x marks }
{}

/// In a tree the number of a parent is lower than that of its child, and a state is strictly below
/// its parent and the ancestors of its parent.
pub fn states_stand_below_their_parents()
    ensures lower { (t : Tree) (s p : ℕ) → IsTree t → parent_of t s ≡ Some p → p < s }
    ensures below { (t : Tree) (s p a : ℕ) → IsTree t → parent_of t s ≡ Some p →
        is_below t s a ≡ is_at_or_below t p a }
    ensures ancestors { (t : Tree) (s p : ℕ) → IsTree t → parent_of t s ≡ Some p →
        ancestors t s ≡ p ∷ ancestors t p }
    ensures root { (t : Tree) (s a : ℕ) → parent_of t s ≡ None → is_below t s a ≡ false }
{}
