//! Numbers, printed.
ghost use Rattle.std.specs.Prelude.{◌≡◌, ◌++◌, decimal, string_bytes, OnOk};

use itoa::Buffer;
use std::alloc::AllocError;

/// Appends words and a number.
pub fn print_number(out: &mut String, words: &str, number: u128) -> Result<(), AllocError>
    ensures { OnOk result
        (string_bytes out.new ≡ string_bytes out.old ++ (words.now ++ decimal number)) }
{
    let mut digits = Buffer::new();
    out.push_str(words)?;
    out.push_str(digits.format(number))?;
    Ok(())
}
