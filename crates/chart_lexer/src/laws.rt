//! The definition of names agrees with the definition of cutting.
ghost use Rattle.std.specs.Prelude.{◌↔◌, ℕ, List, IsTrue};
ghost use Rattle.chart_lexer.specs.Words.{is_name};
ghost use Rattle.chart_lexer.specs.Lex.{IsOneName, HasNames, cut_of};

/// A text is a name exactly where all of it is cut as one.
#[tactic(auto, using(crate::proofs::Names::one_name))]
pub fn a_name_is_cut_as_one()
    ensures { (text : List ℕ) → (IsTrue (is_name text) ↔ IsOneName text) }
{}

/// What is cut from a text as a name is a name.
#[tactic(auto, using(crate::proofs::TokenNames::has_names))]
pub fn what_is_cut_as_a_name_is_one()
    ensures { (text : List ℕ) → HasNames (cut_of text) }
{}
