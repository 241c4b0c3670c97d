//! The command `upgrade`.
ghost use Rattle.std.specs.Prelude.{◌∷◌, [], string_bytes};
ghost use Rattle.code_text.specs.declared.limits.TheConstants.{TEXT_LIMIT};
ghost use Rattle.commands.specs.Call.{sources_of, call_of, OthersStay};
ghost use Rattle.commands.specs.Reading.{FileGives};
ghost use Rattle.commands.specs.CodeText.{RefusesCode};
ghost use Rattle.commands.specs.Upgrade.{IsUpgraded, UpgradeEnds};

use crate::code_file::read_code_file;
use crate::file::FileEnd;
use crate::text::{TextEnd, write_made};
use code_text::{CodeTextFault, print_code};
use flow_base::{Inputs, Memory, Sink};
use std::alloc::Global;

/// Writes the text of format 2 of the code that the file holds in either format.
pub fn upgrade_code<I: Inputs, O: Sink>(
    alloc: Global,
    code_file: &str,
    inputs: &mut I,
    out: &mut O,
) -> TextEnd<CodeTextFault>
    ensures ends { UpgradeEnds (call_of I.Inputs O.Sink inputs.old inputs.new out.old out.new)
        code_file.now result }
    ensures others { OthersStay (code_file.now ∷ [])
        (sources_of I.Inputs inputs.old) (sources_of I.Inputs inputs.new) }
{
    let upgraded = read_upgraded(alloc, inputs, code_file);
    write_made(upgraded, out)
}

/// The text of format 2 of the code that the file of that name holds.
fn read_upgraded<I: Inputs>(
    alloc: Global,
    inputs: &mut I,
    code_file: &str,
) -> Result<String, FileEnd<CodeTextFault>>
    ensures { FileGives TEXT_LIMIT (λ text upgraded. IsUpgraded text (string_bytes upgraded))
        RefusesCode (sources_of I.Inputs inputs.old) (sources_of I.Inputs inputs.new)
        code_file.now result }
{
    let code = read_code_file(alloc, inputs, code_file)?;
    match print_code(alloc, &code) {
        Ok(text) => Ok(text),
        Err(Memory) => Err(FileEnd::Memory),
    }
}
