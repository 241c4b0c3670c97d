//! Names that begin as those of the library of C99.
ghost use Rattle.std.specs.Prelude.{◌≡◌, ◌∷◌, [], codes, nat_eq, slice_index_or};
ghost use Rattle.std.specs.List.{list_any, starts_with};
ghost use Rattle.c_names.specs.Reserved as spec;

/// Whether it is a small letter.
fn is_small(byte: u8) -> bool
    ensures { result ≡ spec.is_small byte }
{
    b'a' <= byte && byte <= b'z'
}

/// Whether it is a capital.
fn is_capital(byte: u8) -> bool
    ensures { result ≡ spec.is_capital byte }
{
    b'A' <= byte && byte <= b'Z'
}

/// Whether it is a capital or a digit.
fn is_capital_or_digit(byte: u8) -> bool
    ensures { result ≡ spec.is_capital_or_digit byte }
{
    is_capital(byte) || (b'0' <= byte && byte <= b'9')
}

/// Whether it is a small letter or `X`.
fn is_small_or_x(byte: u8) -> bool
    ensures { result ≡ spec.is_small_or_x byte }
{
    is_small(byte) || byte == b'X'
}

/// The byte of a name that stands there, 0 where none does.
fn byte_at(name: &[u8], place: usize) -> u8
    ensures { result ≡ slice_index_or name.now place 0 }
{
    if place < name.len() { name[place] } else { 0 }
}

/// Whether a name begins with a word, and goes on with a small letter.
fn small_follows(name: &[u8], word: &[u8]) -> bool
    ensures { result ≡ spec.goes_on spec.is_small word.now name.now }
{
    name.starts_with(word) && is_small(byte_at(name, word.len()))
}

/// Whether a name begins with a word, and goes on with a capital.
fn capital_follows(name: &[u8], word: &[u8]) -> bool
    ensures { result ≡ spec.goes_on spec.is_capital word.now name.now }
{
    name.starts_with(word) && is_capital(byte_at(name, word.len()))
}

/// Whether a name begins with `E` and goes on with a capital or a digit.
fn is_error(name: &[u8]) -> bool
    ensures { result ≡ spec.goes_on spec.is_capital_or_digit (codes "E") name.now }
{
    name.starts_with(b"E".as_slice()) && is_capital_or_digit(byte_at(name, 1))
}

/// Whether a name begins with a word, and goes on with a small letter or `X`.
fn format_follows(name: &[u8], word: &[u8]) -> bool
    ensures { result ≡ spec.goes_on spec.is_small_or_x word.now name.now }
{
    name.starts_with(word) && is_small_or_x(byte_at(name, word.len()))
}

/// Whether a name begins as a function of the library. Source: C99, 7.26.2, 7.26.10 to 7.26.13.
fn begins_function(name: &[u8]) -> bool
    ensures { result ≡ list_any (λ word. spec.goes_on spec.is_small word name.now)
        (codes "is" ∷ codes "to" ∷ codes "str" ∷ codes "mem" ∷ codes "wcs" ∷ []) }
{
    small_follows(name, b"is")
        || small_follows(name, b"to")
        || small_follows(name, b"str")
        || small_follows(name, b"mem")
        || small_follows(name, b"wcs")
}

/// Whether a name begins as a macro of the library. Source: C99, 7.26.5, 7.26.6, 7.6, 7.12.
fn begins_macro(name: &[u8]) -> bool
    ensures { result ≡ list_any (λ word. spec.goes_on spec.is_capital word name.now)
        (codes "SIG" ∷ codes "LC_" ∷ codes "SIG_" ∷ codes "FE_" ∷ codes "FP_" ∷ []) }
{
    capital_follows(name, b"SIG")
        || capital_follows(name, b"LC_")
        || capital_follows(name, b"SIG_")
        || capital_follows(name, b"FE_")
        || capital_follows(name, b"FP_")
}

/// Whether a name begins as a type or a macro of whole numbers, or with `_`. Source: C99, 7.26.8
/// and 7.1.3.
fn begins_number(name: &[u8]) -> bool
    ensures { result ≡ list_any (λ word. starts_with nat_eq name.now word)
        (codes "int" ∷ codes "uint" ∷ codes "INT" ∷ codes "UINT" ∷ codes "_" ∷ []) }
{
    name.starts_with(b"int".as_slice())
        || name.starts_with(b"uint".as_slice())
        || name.starts_with(b"INT".as_slice())
        || name.starts_with(b"UINT".as_slice())
        || name.starts_with(b"_".as_slice())
}

/// Whether a name begins as one that C99 keeps for its library.
pub(crate) fn begins_reserved(name: &[u8]) -> bool
    ensures { result ≡ spec.begins_reserved name.now }
{
    begins_function(name)
        || is_error(name)
        || format_follows(name, b"PRI")
        || format_follows(name, b"SCN")
        || begins_macro(name)
        || begins_number(name)
}
