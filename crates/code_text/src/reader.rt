//! Code from its text.
ghost use Rattle.std.specs.Prelude.{◌≡◌, ◌≤◌, length, IfOk, IfErr, Ok, MatchResult};
ghost use Rattle.code_language.specs.Code.{code_of};
ghost use Rattle.code_language.specs.WellFormed.{IsCode};
ghost use Rattle.code_lines.specs.declared.format.Format as declared;
ghost use Rattle.code_text.specs.Reading as spec;
ghost use Rattle.code_text.specs.Spelling.{code_text, IsSpellable};
ghost use Rattle.code_text.specs.Views.{partial_of, Answers, IsAnswer};
ghost use Rattle.code_text.specs.Written.{Written, written_of, code_written};

use crate::fault::CodeTextFault;
use crate::limits::TEXT_LIMIT;
use crate::partial::Partial;
use crate::refusal::{is_whole, refusal};
use code_fields::next_line;
use code_language::{Code, CodeEnd, RawCode, accept};
use std::alloc::Global;

/// The code that a text spells in one of the formats, if it is well formed.
pub fn read_code(alloc: Global, text: &[u8]) -> Result<Code, CodeTextFault>
    // What is read is spelled so, each byte of it, and well formed.
    ensures read { IfOk result (λ code.
        (format : declared.Format) × (text.now ≡ code_text format (written_of code))
        × IsSpellable format (written_of code)) }
    ensures formed { IfOk result (λ code. IsCode (code_of code)) }
    ensures short { IfOk result (λ code. length text.now ≤ TEXT_LIMIT) }
    // What is spelled so and well formed is read, unless memory runs out.
    ensures only { (format : declared.Format) (w : Written) → IsSpellable format w
        → IsCode (code_written w) → text.now ≡ code_text format w → length text.now ≤ TEXT_LIMIT
        → MatchResult result (λ code. written_of code ≡ w) (λ fault. fault ≡ CodeTextFault.Memory) }
    // Each fault but `Memory` is the one of the text, or the first of its code.
    ensures refused { IfErr result (λ fault. spec.IsCause text.now fault) }
{
    read_formed(alloc, text)
}

/// What reading the text gives.
fn read_formed(alloc: Global, text: &[u8]) -> Result<Code, CodeTextFault>
    ensures { IsAnswer text.now result }
{
    let raw = match read_raw(alloc, text) {
        Ok(raw) => raw,
        Err(fault) => return Err(fault),
    };
    match accept(alloc, raw) {
        Ok(code) => {
            // Only the proof reads the code: it is well formed.
            let _raw = code.raw();
            Ok(code)
        }
        Err(CodeEnd::Fault(fault)) => Err(CodeTextFault::Form(fault)),
        Err(CodeEnd::Memory) => Err(CodeTextFault::Memory),
    }
}

/// The code that a text spells, well formed or not. The text is read once, from its first line on,
/// and a count in it takes no memory by itself.
fn read_raw(alloc: Global, text: &[u8]) -> Result<RawCode, CodeTextFault>
    ensures { Answers written_of result (spec.spelled text.now) }
{
    if text.len() > TEXT_LIMIT {
        return Err(CodeTextFault::TextTooLong);
    }
    let mut partial = Partial::new(alloc);
    let mut rest = text;
    let mut number = 1;
    while let Some(parts) = next_line(rest) {
        let expected = partial.expected();
        match partial.read(alloc, parts.front) {
            Ok(true) => {}
            Ok(false) => return Err(refusal(expected, number, parts.front)),
            Err(_) => return Err(CodeTextFault::Memory),
        }
        rest = parts.rest;
        number += 1;
    }
    read_to_end(partial, number, rest)
}

/// The code, where the line `end` was read and nothing stands after it. The line that isn't whole
/// has this number.
fn read_to_end(partial: Partial, number: u32, rest: &[u8]) -> Result<RawCode, CodeTextFault>
    ensures { Answers written_of result (spec.at_end (partial_of partial) number rest.now) }
{
    if !is_whole(partial.expected()) {
        return Err(CodeTextFault::Truncated);
    }
    if !rest.is_empty() {
        return Err(CodeTextFault::Trailing(number));
    }
    Ok(partial.into_raw())
}
