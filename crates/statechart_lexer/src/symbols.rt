//! Symbols of one and of two bytes.
ghost use Rattle.std.specs.Prelude.{◌≡◌};
ghost use Rattle.chart_lexer.specs.Symbols as core;
ghost use Rattle.statechart_lexer.specs.Symbols as spec;

use token_grammar::Kind;

/// Whether two bytes are one of `+= -= *= /= ++`, which change a datum.
#[tactic(auto, unfolding(crate::specs::Symbols::is_change))]
fn is_change(first: u8, second: u8) -> bool
    ensures { result ≡ spec.is_change first second }
{
    (second == b'=' && (first == b'+' || first == b'-' || first == b'*' || first == b'/'))
        || (first == b'+' && second == b'+')
}

/// The symbol of a chart text that two bytes are.
#[tactic(auto, unfolding(chart_lexer::specs::Symbols::pair_kind))]
fn chart_pair(first: u8, second: u8) -> Option<Kind>
    ensures { result ≡ core.pair_kind first second }
{
    match first {
        b'-' if second == b'>' => Some(Kind::Arrow),
        b'=' if second == b'=' => Some(Kind::EqualEqual),
        b'!' if second == b'=' => Some(Kind::NotEqual),
        b'<' if second == b'=' => Some(Kind::LessEqual),
        b'>' if second == b'=' => Some(Kind::GreaterEqual),
        b'&' if second == b'&' => Some(Kind::AndAnd),
        b'|' if second == b'|' => Some(Kind::OrOr),
        _ => None,
    }
}

/// The symbol of a chart text that one byte is.
#[tactic(auto, unfolding(chart_lexer::specs::Symbols::single_kind))]
fn chart_single(first: u8) -> Option<Kind>
    ensures { result ≡ core.single_kind first }
{
    match first {
        b'{' => Some(Kind::OpenBrace),
        b'}' => Some(Kind::CloseBrace),
        b'[' => Some(Kind::OpenBracket),
        b']' => Some(Kind::CloseBracket),
        b'(' => Some(Kind::OpenParen),
        b')' => Some(Kind::CloseParen),
        b';' => Some(Kind::Semicolon),
        b':' => Some(Kind::Colon),
        b',' => Some(Kind::Comma),
        b'@' => Some(Kind::At),
        b'=' => Some(Kind::Assign),
        b'/' => Some(Kind::Slash),
        b'+' => Some(Kind::Plus),
        b'-' => Some(Kind::Minus),
        b'*' => Some(Kind::Star),
        b'<' => Some(Kind::Less),
        b'>' => Some(Kind::Greater),
        b'!' => Some(Kind::Not),
        _ => None,
    }
}

/// The symbol that two bytes are.
#[tactic(auto, unfolding(crate::specs::Symbols::pair_kind))]
fn pair_kind(first: u8, second: u8) -> Option<Kind>
    ensures { result ≡ spec.pair_kind first second }
{
    if is_change(first, second) {
        Some(Kind::Chart)
    } else {
        chart_pair(first, second)
    }
}

/// The symbol that one byte is.
#[tactic(auto, unfolding(crate::specs::Symbols::single_kind))]
fn single_kind(first: u8) -> Option<Kind>
    ensures { result ≡ spec.single_kind first }
{
    if first == b'.' || first == b'|' {
        Some(Kind::Comment)
    } else {
        chart_single(first)
    }
}

/// The symbol that the first two bytes of a text are.
pub fn first_pair(text: &[u8]) -> Option<Kind>
    ensures { result ≡ spec.first_pair text.now }
{
    if text.len() < 2 {
        return None;
    }
    pair_kind(text[0], text[1])
}

/// The symbol that the first byte of a text is.
pub fn first_single(text: &[u8]) -> Option<Kind>
    ensures { result ≡ spec.first_single text.now }
{
    if text.is_empty() {
        return None;
    }
    single_kind(text[0])
}
