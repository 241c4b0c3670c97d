//! Why a line can't stand where it is.
ghost use Rattle.std.specs.Prelude.{◌≡◌};
ghost use Rattle.code_text.specs.Reading as spec;

use crate::expected::Expected;
use crate::fault::CodeTextFault;

/// Whether the line `end` was read.
pub fn is_whole(expected: Expected) -> bool
    ensures { result ≡ spec.is_whole expected }
{
    match expected {
        Expected::Nothing => true,
        Expected::Version
        | Expected::StateCount
        | Expected::Root(_)
        | Expected::State(_)
        | Expected::VarCount
        | Expected::Var(_)
        | Expected::EventCount
        | Expected::Event(_)
        | Expected::ProcCount
        | Expected::Head(_)
        | Expected::Instr(_, _)
        | Expected::End => false,
    }
}

/// Why the line of that number can't stand.
pub fn refusal(expected: Expected, number: u32, line: &[u8]) -> CodeTextFault
    ensures { result ≡ spec.refusal expected number line.now }
{
    if is_whole(expected) {
        return CodeTextFault::Trailing(number);
    }
    if number == 1 && line.starts_with(b"flowcode ") {
        return CodeTextFault::Version;
    }
    CodeTextFault::BadLine(number)
}
