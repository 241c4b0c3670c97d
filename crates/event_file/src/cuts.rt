//! What bytes of an event file begin with.
ghost use Rattle.std.specs.Prelude.{◌≡◌, ◌≤◌, ◌<◌, ◌+◌, ℕ, length, take};
ghost use Rattle.event_file.specs.Lines.{line_length, without_return};
ghost use Rattle.event_file.specs.Reading as spec;

use crate::limits::{BUFFER_SIZE, FILE_LIMIT, LINE_LIMIT};
use memchr::memchr;

/// The length of the first line of a text, its newline not counted.
pub(crate) fn first_length(text: &[u8]) -> usize
    ensures length { result ≡ line_length text.now }
    ensures within { result ≤ length text.now }
{
    match memchr(b'\n', text) {
        Some(place) => place,
        None => text.len(),
    }
}

/// The length of a line without a byte 13 at its end.
pub(crate) fn length_without_return(line: &[u8]) -> usize
    ensures line { take result line.now ≡ without_return line.now }
    ensures within { result ≤ length line.now }
{
    let length = line.len();
    if length > 0 && line[length - 1] == b'\r' {
        length - 1
    } else {
        length
    }
}

/// What bytes begin with.
#[derive(Clone, Copy)]
pub(crate) enum Cut {
    /// A line with over `LINE_LIMIT` bytes, where the first byte too many is earlier than the first
    /// byte that the file has no room for.
    TooLong,
    /// A line that holds the first byte that the file has no room for.
    PastFile,
    /// A line, with the number of its bytes, the newline included.
    Line(usize),
    /// Nothing, at the end of the file.
    End,
}

/// What `held` bytes begin with, of which the first line has `length`, after `at` bytes of the
/// file.
pub(crate) fn cut_at(at: u64, length: usize, held: usize) -> Cut
    requires at { at ≤ FILE_LIMIT + 1 }
    requires length { length ≤ held }
    requires held { held ≤ BUFFER_SIZE }
    ensures { result ≡ spec.cut_at at length held }
{
    if length > LINE_LIMIT && at + (LINE_LIMIT as u64) < FILE_LIMIT {
        return Cut::TooLong;
    }
    if at + length as u64 >= FILE_LIMIT && at + held as u64 > FILE_LIMIT {
        return Cut::PastFile;
    }
    if length < held {
        return Cut::Line(length + 1);
    }
    if length > 0 {
        Cut::Line(length)
    } else {
        Cut::End
    }
}

/// Whether those bytes tell what they begin with, whatever comes after them.
pub(crate) fn is_enough(at: u64, length: usize, held: usize) -> bool
    requires at { at ≤ FILE_LIMIT + 1 }
    requires held { held ≤ BUFFER_SIZE }
    ensures { result ≡ spec.is_enough at length held }
{
    length < held || held > LINE_LIMIT || at + held as u64 > FILE_LIMIT
}

/// How many bytes more may be read after those at hand: no more than there is room for, and no more
/// than one byte past the file's limit.
pub(crate) fn read_size(at: u64, held: usize) -> usize
    requires held { held ≤ LINE_LIMIT }
    requires file { at + held ≤ FILE_LIMIT }
    ensures some { 0 < result }
    ensures room { held + result ≤ BUFFER_SIZE }
    ensures file { at + held + result ≤ FILE_LIMIT + 1 }
{
    let to_limit = FILE_LIMIT + 1 - (at + held as u64);
    to_limit.min((BUFFER_SIZE - held) as u64) as usize
}
