//! The words of operators.
ghost use Rattle.std.specs.Prelude.{◌≡◌};
ghost use Rattle.chart_grammar.specs.Expressions as grammar;

use chart_tree::{BinWord, UnWord};
use token_grammar::Kind;

/// The word of a binary operator. The kind is that of such an operator; any other gives `Div`.
pub fn bin_word(kind: Kind) -> BinWord
    ensures { result ≡ grammar.bin_word kind }
{
    match kind {
        Kind::OrOr => BinWord::Or,
        Kind::AndAnd => BinWord::And,
        Kind::EqualEqual => BinWord::Eq,
        Kind::NotEqual => BinWord::Ne,
        Kind::Less => BinWord::Lt,
        Kind::LessEqual => BinWord::Le,
        Kind::Greater => BinWord::Gt,
        Kind::GreaterEqual => BinWord::Ge,
        Kind::Plus => BinWord::Add,
        Kind::Minus => BinWord::Sub,
        Kind::Star => BinWord::Mul,
        _ => BinWord::Div,
    }
}

/// The word of a unary operator: `Neg` for a minus, else `Not`.
pub fn un_word(kind: Kind) -> UnWord
    ensures { result ≡ grammar.un_word kind }
{
    if kind == Kind::Minus {
        UnWord::Neg
    } else {
        UnWord::Not
    }
}
