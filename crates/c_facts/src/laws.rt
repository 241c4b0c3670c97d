//! What holds of what is known after tests, stores and calls.
ghost use Rattle.std.specs.Prelude.{◌≡◌, ℕ, Bool, true, false, List, [], ◌∷◌, pos};
ghost use Rattle.c_subset.specs.declared.trees.Width.{Width};
ghost use Rattle.c_subset.specs.declared.trees.Width.TheVariants.{W16};
ghost use Rattle.c_subset.specs.declared.trees.CType.TheVariants.{Unsigned};
ghost use Rattle.c_subset.specs.Trees.{CExpr, Const, Both, Bang};
ghost use Rattle.c_facts.specs.Known.{Place, Anything, OneOf, Known, Never, Imply};
ghost use Rattle.c_facts.specs.declared.known.Place.TheVariants as places;
ghost use Rattle.c_facts.specs.Facts.{
  joined,
  covers,
  is_never,
  framed,
  forgotten,
  is_touched,
  all_covered,
};
ghost use Rattle.c_facts.specs.Asking.{tested, stored, may_store};
ghost use Rattle.c_facts.specs.Examples.{
  chart_known,
  or_none,
  surely,
  between,
  is_child,
  is_set,
  with_bits,
  only_bits,
};
ghost use Rattle.c_facts.specs.Claims.{
  AfterTest,
  AfterStore,
  StoresWithin,
  AfterElement,
  AfterCall,
  AfterChange,
  AfterEither,
  NeverHolds,
};

/// What tests, stores and calls tell of a small chart: single cases.
pub fn tests_of_a_small_chart_are_decided()
    ensures up { tested true (is_child 1 3) between
        ≡ chart_known (surely (2 ∷ [])) (surely (3 ∷ [])) (surely (1 ∷ [])) (surely (0 ∷ 1 ∷ [])) }
    ensures down { tested true (is_child 0 1) between ≡ chart_known (surely (1 ∷ []))
        (OneOf [] (0 ∷ [])) (surely (1 ∷ [])) (surely (0 ∷ 1 ∷ [])) }
    ensures none { tested true (Both (is_child 0 1) (is_child 1 3)) between ≡ Never }
    ensures unequal { tested false (Bang (is_child 0 7)) between ≡ Never }
    ensures bit { tested true (is_set 2 2) (tested true (is_set 2 1) between)
        ≡ chart_known (surely (1 ∷ 2 ∷ [])) (or_none (3 ∷ 4 ∷ [])) (surely (1 ∷ []))
        (surely (1 ∷ [])) }
    ensures bit_that_is_set { stored 2 (with_bits 2 2) between ≡ chart_known (or_none (1 ∷ 2 ∷ []))
        (or_none (3 ∷ 4 ∷ [])) (or_none (1 ∷ [])) (OneOf (1 ∷ []) (1 ∷ [])) }
    ensures bit_that_is_cleared { stored 2 (only_bits 2 4294967293) between
        ≡ chart_known (or_none (1 ∷ 2 ∷ [])) (or_none (3 ∷ 4 ∷ [])) (or_none (1 ∷ []))
        (OneOf (0 ∷ []) (0 ∷ [])) }
    ensures child { stored 0 (Const (Unsigned W16) (pos 2)) (tested true (is_child 0 1) between)
        ≡ chart_known (surely (2 ∷ [])) (surely (0 ∷ [])) (surely (1 ∷ [])) (surely (0 ∷ 1 ∷ [])) }
    ensures call { framed (is_touched (places.Bit 2 1 ∷ [])) (tested true (is_child 1 3) between)
        (chart_known Anything Anything Anything (OneOf (0 ∷ []) (0 ∷ [])))
        ≡ chart_known (surely (2 ∷ [])) (surely (3 ∷ [])) (surely (1 ∷ [])) (surely (0 ∷ [])) }
    ensures only_the_bit { may_store (places.Bit 2 1 ∷ []) 2 (only_bits 2 4294967293) between
        ≡ true }
{}

/// What is known after a test that came out so holds.
pub fn tested_facts_hold()
    ensures { (int : Width) (known : Known) (e : CExpr) (way : Bool)
        → AfterTest int known e way (tested way e known) }
{}

/// What is known after a store holds, and a store that was found to change only these places does.
pub fn stored_facts_hold()
    ensures after { (int : Width) (known : Known) (f : ℕ) (e : CExpr)
        → AfterStore int known f e (stored f e known) }
    ensures within { (int : Width) (places : List Place) (known : Known) (f : ℕ) (e : CExpr)
        → may_store places f e known ≡ true → StoresWithin int places known f e }
    ensures element { (known : Known) → AfterElement known known }
{}

/// What is known after a call holds, and what stays where some places change.
pub fn framed_facts_hold()
    ensures after { (touched : Place → Bool) (known left : Known)
        → AfterCall touched known left (framed touched known left) }
    ensures forgotten { (touched : Place → Bool) (known : Known)
        → AfterChange touched known (forgotten touched known) }
    ensures within { (few many : List Place) (q : Place) → all_covered few many ≡ true
        → is_touched few q ≡ true → is_touched many q ≡ true }
{}

/// What is known after both ways of a test holds, what is found to follow does, and what no run
/// comes to holds nowhere.
pub fn joined_facts_hold()
    ensures either { (a b : Known) → AfterEither a b (joined a b) }
    ensures follows { (a b : Known) → covers a b ≡ true → Imply a b }
    ensures never { (a : Known) → is_never a ≡ true → NeverHolds a }
{}
