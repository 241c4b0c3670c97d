//! The tokens of a line.
ghost use Rattle.std.specs.Prelude.{◌≡◌, ◌∷◌, [], ◌<◌, length, not, IfSome, MatchOption};
ghost use Rattle.std.specs.List.{position};
ghost use Rattle.event_file.specs.EventLines.{is_blank, tokens_of};

/// A text cut after its first token.
#[derive(Clone, Copy)]
pub struct TokenCut<'a> {
    /// The first token, which isn't empty.
    pub token: &'a [u8],
    /// What comes after it.
    pub rest: &'a [u8],
}

/// Cuts a text after its first token. None where it has no token. Tokens are what stands between
/// spaces and tabs. It takes no memory.
///
/// This project's choice.
pub fn next_token(text: &[u8]) -> Option<TokenCut<'_>>
    ensures tokens { MatchOption result (tokens_of text.now ≡ [])
        (λ cut. tokens_of text.now ≡ cut.token.now ∷ tokens_of cut.rest.now) }
    ensures some { IfSome result (λ cut. 0 < length cut.token.now) }
    ensures shorter { IfSome result (λ cut. length cut.rest.now < length text.now) }
{
    let start = first_unblank(text)?;
    let text = &text[start..];
    match first_blank(text) {
        Some(end) => Some(TokenCut {
            token: &text[..end],
            rest: &text[end..],
        }),
        None => Some(TokenCut {
            token: text,
            rest: &[],
        }),
    }
}

/// The place of the first space or tab. Tokens are short, so that a search of many bytes at once
/// takes longer.
fn first_blank(text: &[u8]) -> Option<usize>
    ensures place { result ≡ position is_blank text.now }
    ensures within { IfSome result (λ n. n < length text.now) }
{
    text.iter().position(|byte| is_blank(*byte))
}

/// The place of the first byte that is neither.
fn first_unblank(text: &[u8]) -> Option<usize>
    ensures place { result ≡ position (λ b. not (is_blank b)) text.now }
    ensures within { IfSome result (λ n. n < length text.now) }
{
    text.iter().position(|byte| !is_blank(*byte))
}

/// Whether a byte is a space or a tab.
fn is_blank(byte: u8) -> bool
    ensures { result ≡ is_blank byte }
{
    byte == b' ' || byte == b'\t'
}
