//! The classes of bytes in a chart text.
ghost use Rattle.std.specs.Prelude.{◌≡◌};
ghost use Rattle.chart_lexer.specs.Bytes as spec;

/// Whether the byte separates tokens.
pub fn is_blank(byte: u8) -> bool
    ensures { result ≡ spec.is_blank byte }
{
    byte == b' ' || byte == b'\n' || byte == b'\t' || byte == b'\r'
}

/// Whether the byte may stand in a chart text.
pub fn is_allowed(byte: u8) -> bool
    ensures { result ≡ spec.is_allowed byte }
{
    is_blank(byte) || (byte >= b' ' && byte <= b'~')
}

/// Whether the byte is a letter of either case.
pub fn is_letter(byte: u8) -> bool
    ensures { result ≡ spec.is_letter byte }
{
    (byte >= b'a' && byte <= b'z') || (byte >= b'A' && byte <= b'Z')
}

/// Whether the byte is a decimal digit.
pub fn is_digit(byte: u8) -> bool
    ensures { result ≡ spec.is_digit byte }
{
    byte >= b'0' && byte <= b'9'
}

/// Whether the byte is a letter, a digit or an underscore.
pub fn is_name_byte(byte: u8) -> bool
    ensures { result ≡ spec.is_name_byte byte }
{
    is_letter(byte) || is_digit(byte) || byte == b'_'
}
