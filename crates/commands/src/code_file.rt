//! Accepted code from a file.
ghost use Rattle.commands.specs.Call.{sources_of};
ghost use Rattle.commands.specs.Reading.{FileGives};
ghost use Rattle.code_text.specs.declared.limits.TheConstants.{TEXT_LIMIT};
ghost use Rattle.commands.specs.CodeText.{IsCodeText, RefusesCode};

use crate::file::{FileEnd, read_text};
use code_language::Code;
use code_text::{CodeTextFault, TEXT_LIMIT, read_code};
use flow_base::Inputs;
use std::alloc::Global;

/// Reads the file of that name as the text of code that is accepted.
pub fn read_code_file<I: Inputs>(
    alloc: Global,
    inputs: &mut I,
    name: &str,
) -> Result<Code, FileEnd<CodeTextFault>>
    ensures { FileGives TEXT_LIMIT IsCodeText RefusesCode
        (sources_of I.Inputs inputs.old) (sources_of I.Inputs inputs.new) name.now result }
{
    let text = read_text(alloc, inputs, name, TEXT_LIMIT, CodeTextFault::TextTooLong)?;
    match read_code(alloc, &text) {
        Ok(code) => Ok(code),
        Err(CodeTextFault::Memory) => Err(FileEnd::Memory),
        Err(fault) => Err(FileEnd::Refused(fault)),
    }
}
