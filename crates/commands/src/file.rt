//! A file that is read whole.
ghost use Rattle.commands.specs.Call.{sources_of};
ghost use Rattle.commands.specs.Reading.{FileGives, IsTextOf, RefusesLong};

use flow_base::{Inputs, ReadEnd, read_whole};
use std::alloc::Global;

/// Why nothing comes of a file.
#[derive(Clone, Copy)]
pub enum FileEnd<R> {
    /// Its text is refused, for that reason.
    Refused(R),
    /// A read of it failed.
    Read,
    /// Memory ran out.
    Memory,
}

/// Reads the file of that name whole. One that has more than `limit` bytes is refused as
/// `too_long`, once one byte past the limit was read.
pub fn read_text<I: Inputs, R: Drop>(
    alloc: Global,
    inputs: &mut I,
    name: &str,
    limit: usize,
    too_long: R,
) -> Result<Vec<u8>, FileEnd<R>>
    ensures { FileGives limit (IsTextOf limit) (RefusesLong limit too_long)
        (sources_of I.Inputs inputs.old) (sources_of I.Inputs inputs.new) name.now result }
{
    match read_whole(alloc, inputs, name, limit) {
        Ok(text) => Ok(text),
        Err(ReadEnd::Failed) => Err(FileEnd::Read),
        Err(ReadEnd::TooLong) => Err(FileEnd::Refused(too_long)),
        Err(ReadEnd::Memory) => Err(FileEnd::Memory),
    }
}
