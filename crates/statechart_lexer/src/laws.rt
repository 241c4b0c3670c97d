//! What is cut as a name is a name.
ghost use Rattle.std.specs.Prelude.{ℕ, List};
ghost use Rattle.chart_lexer.specs.Lex.{HasNames};
ghost use Rattle.statechart_lexer.specs.Lex.{cut_of};

/// What is cut from a text as a name is a name.
#[tactic(auto, using(crate::proofs::TokenNames::has_names))]
pub fn what_is_cut_as_a_name_is_one()
    ensures { (text : List ℕ) → HasNames (cut_of text) }
{}
