//! The command `shrink`.
ghost use Rattle.std.specs.Prelude.{◌∷◌, [], IfOk, string_bytes};
ghost use Rattle.code_text.specs.declared.limits.TheConstants.{TEXT_LIMIT};
ghost use Rattle.commands.specs.Call.{sources_of, call_of, OthersStay};
ghost use Rattle.commands.specs.Reading.{FileGives};
ghost use Rattle.commands.specs.CodeText.{RefusesCode};
ghost use Rattle.commands.specs.Shrink.{HasShrunkText, IsShrunkText, ShrinkEnds};

use crate::code_file::read_code_file;
use crate::file::FileEnd;
use crate::text::{TextEnd, write_made};
use code_language::Code;
use code_shrink::shrink;
use code_text::{CodeTextFault, print_code};
use flow_base::{Inputs, Memory, Sink};
use std::alloc::Global;

/// Writes the text of format 2 of smaller code of the same meaning as the code that the file holds
/// in either format.
pub fn shrink_code<I: Inputs, O: Sink>(
    alloc: Global,
    code_file: &str,
    inputs: &mut I,
    out: &mut O,
) -> TextEnd<CodeTextFault>
    ensures ends { ShrinkEnds (call_of I.Inputs O.Sink inputs.old inputs.new out.old out.new)
        code_file.now result }
    ensures others { OthersStay (code_file.now ∷ [])
        (sources_of I.Inputs inputs.old) (sources_of I.Inputs inputs.new) }
{
    let shrunk = read_shrunk(alloc, inputs, code_file);
    write_made(shrunk, out)
}

/// The text of format 2 of smaller code of the same meaning as the code that the file of that name
/// holds.
fn read_shrunk<I: Inputs>(
    alloc: Global,
    inputs: &mut I,
    code_file: &str,
) -> Result<String, FileEnd<CodeTextFault>>
    ensures { FileGives TEXT_LIMIT (λ text shrunk. HasShrunkText text (string_bytes shrunk))
        RefusesCode (sources_of I.Inputs inputs.old) (sources_of I.Inputs inputs.new)
        code_file.now result }
{
    let code = read_code_file(alloc, inputs, code_file)?;
    match shrunk_text(alloc, &code) {
        Ok(text) => Ok(text),
        Err(Memory) => Err(FileEnd::Memory),
    }
}

/// The text of format 2 of smaller code of the same meaning.
fn shrunk_text(alloc: Global, code: &Code) -> Result<String, Memory>
    ensures { IfOk result (λ text. IsShrunkText code.now (string_bytes text)) }
{
    let smaller = shrink(alloc, code)?;
    print_code(alloc, &smaller)
}
