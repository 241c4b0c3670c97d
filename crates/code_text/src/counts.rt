//! The line of the procedures, and the first line.
ghost use Rattle.std.specs.Prelude.{◌≡◌, option_map};
ghost use Rattle.code_text.specs.Reading as spec;
ghost use Rattle.code_text.specs.Views.{three_of};

use code_fields::{behind, cut_at, number_of};
use code_lines::Format;

/// The count of procedures, and those of the start and of a reaction.
#[derive(Clone, Copy)]
pub struct Procs {
    /// How many there are.
    pub count: u32,
    /// The procedure of the start.
    pub start: u32,
    /// The procedure of a reaction.
    pub react: u32,
}

/// The three numbers of the line of procedures.
#[tactic(auto, unfolding(crate::specs::Reading::procs_of))]
pub fn procs_of(line: &[u8]) -> Option<Procs>
    ensures { option_map three_of result ≡ spec.procs_of line.now }
{
    let first = cut_at(behind(b"procs ", line)?, b' ')?;
    let count = number_of(first.front)?;
    let second = cut_at(first.rest, b' ')?;
    let start = number_of(second.front)?;
    let react = number_of(second.rest)?;
    Some(Procs {
        count,
        start,
        react,
    })
}

/// The format that the first line names.
#[tactic(auto, unfolding(crate::specs::Reading::format_of))]
pub fn format_of(line: &[u8]) -> Option<Format>
    ensures { result ≡ spec.format_of line.now }
{
    if line == b"flowcode 1".as_slice() {
        Some(Format::One)
    } else if line == b"flowcode 2".as_slice() {
        Some(Format::Two)
    } else {
        None
    }
}
