//! Numbers within limits, and names of files.
ghost use Rattle.std.specs.Prelude.{◌≡◌, IfSome, IsTrue};
ghost use Rattle.std.specs.List.{list_all};
ghost use Rattle.std.specs.Option.{option_copied};
ghost use Rattle.net_text.specs.Fields as spec;

use crate::limits::FILE_NAME_LIMIT;
use code_fields::{behind, number_of};

/// A number from `least` to `most`.
pub fn number_within(text: &[u8], least: u32, most: u32) -> Option<u32>
    ensures { result ≡ spec.number_within least most text.now }
{
    let number = number_of(text)?;
    if least <= number && number <= most {
        Some(number)
    } else {
        None
    }
}

/// The number of one of so many charts.
pub fn chart_number(text: &[u8], charts: usize) -> Option<u32>
    ensures { result ≡ spec.chart_number charts text.now }
{
    let number = number_of(text)?;
    if (number as usize) < charts {
        Some(number)
    } else {
        None
    }
}

/// A number from `least` to `most` after those words, and nothing after it.
#[tactic(auto, unfolding(crate::specs::Fields::count_behind))]
pub fn count_behind(words: &[u8], line: &[u8], least: u32, most: u32) -> Option<u32>
    ensures { result ≡ spec.count_behind words.now least most line.now }
{
    number_within(behind(words, line)?, least, most)
}

/// A text that is the name of a file.
pub fn file_of(text: &[u8]) -> Option<&[u8]>
    ensures file { option_copied result ≡ spec.file_of text.now }
    ensures named { IfSome result (λ file. IsTrue (spec.is_file_name file.now)) }
{
    if is_file_name(text) { Some(text) } else { None }
}

/// Whether the text is 1 to `FILE_NAME_LIMIT` bytes of 33 to 126.
fn is_file_name(text: &[u8]) -> bool
    ensures { result ≡ spec.is_file_name text.now }
{
    !text.is_empty() && text.len() <= FILE_NAME_LIMIT && are_file_bytes(text)
}

/// Whether each byte is one of 33 to 126.
fn are_file_bytes(text: &[u8]) -> bool
    ensures { result ≡ list_all spec.is_file_byte text.now }
{
    text.iter().all(|byte| is_file_byte(*byte))
}

/// Whether the byte is one of 33 to 126.
fn is_file_byte(byte: u8) -> bool
    ensures { result ≡ spec.is_file_byte byte }
{
    byte >= b'!' && byte <= b'~'
}
