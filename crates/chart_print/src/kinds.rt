//! The texts of keywords and symbols.
ghost use Rattle.std.specs.Prelude.{◌≡◌};
ghost use Rattle.chart_print.specs.Pieces.{kind_bytes};

use token_grammar::Kind;

/// The text of a keyword or a symbol; names, numbers and comments have no fixed text.
#[tactic(auto, unfolding(crate::specs::Pieces::kind_bytes))]
pub(crate) fn text_of(kind: Kind) -> &'static str
    ensures { result.now ≡ kind_bytes kind }
{
    match kind {
        Kind::Chart => "chart",
        Kind::Or => "or",
        Kind::And => "and",
        Kind::State => "state",
        Kind::Entry => "entry",
        Kind::During => "during",
        Kind::Exit => "exit",
        Kind::Outer => "outer",
        Kind::Inner => "inner",
        Kind::Default => "default",
        Kind::Junction => "junction",
        Kind::Event => "event",
        Kind::Input => "input",
        Kind::Output => "output",
        Kind::Local => "local",
        Kind::Send => "send",
        Kind::To => "to",
        Kind::Emit => "emit",
        Kind::In => "in",
        Kind::True => "true",
        Kind::False => "false",
        Kind::Tick => "tick",
        Kind::Saturate => "saturate",
        Kind::Wrap => "wrap",
        Kind::Error => "error",
        Kind::History => "history",
        Kind::Name | Kind::Number | Kind::Comment => "",
        Kind::OpenBrace => "{",
        Kind::CloseBrace => "}",
        Kind::OpenBracket => "[",
        Kind::CloseBracket => "]",
        Kind::OpenParen => "(",
        Kind::CloseParen => ")",
        Kind::Semicolon => ";",
        Kind::Colon => ":",
        Kind::Comma => ",",
        Kind::At => "@",
        Kind::Assign => "=",
        Kind::Arrow => "->",
        Kind::Slash => "/",
        Kind::Plus => "+",
        Kind::Minus => "-",
        Kind::Star => "*",
        Kind::EqualEqual => "==",
        Kind::NotEqual => "!=",
        Kind::Less => "<",
        Kind::LessEqual => "<=",
        Kind::Greater => ">",
        Kind::GreaterEqual => ">=",
        Kind::AndAnd => "&&",
        Kind::OrOr => "||",
        Kind::Not => "!",
    }
}
