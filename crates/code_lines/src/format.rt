//! The two formats of code texts.
ghost use Rattle.std.specs.Prelude.{◌≡◌};
ghost use Rattle.code_language.specs.Code.{instr_of, cond_of};
ghost use Rattle.code_lines.specs.Spelling as spec;

use code_language::{Cond, Instr};

/// The format of a code text, which its first line names.
#[derive(Clone, Copy, PartialEq, Eq)]
pub enum Format {
    /// The first format: nothing is remembered.
    One,
    /// The second format, which has `keep` and `last`.
    Two,
}

/// Whether the format has the instruction.
pub fn is_in(format: Format, instr: &Instr) -> bool
    ensures { result ≡ spec.is_in format (instr_of instr.now) }
{
    match instr {
        Instr::Keep(_) => format == Format::Two,
        Instr::Unless(_, cond) => cond_is_in(format, cond),
        Instr::Assign(_, _)
        | Instr::Emit(_)
        | Instr::Mark(_)
        | Instr::Clear(_)
        | Instr::Skip(_)
        | Instr::Call(_, _)
        | Instr::Visit(_, _)
        | Instr::Send(_)
        | Instr::SendTo(_, _, _)
        | Instr::Play
        | Instr::Home(_)
        | Instr::Begin
        | Instr::Pass
        | Instr::Ret(_) => true,
    }
}

/// Whether the format has the condition.
fn cond_is_in(format: Format, cond: &Cond) -> bool
    ensures { result ≡ spec.cond_is_in format (cond_of cond.now) }
{
    match cond {
        Cond::Last(_) => format == Format::Two,
        Cond::On(_)
        | Cond::Bare(_)
        | Cond::OnHome
        | Cond::BareHome
        | Cond::Current(_)
        | Cond::Result(_)
        | Cond::Test(_) => true,
    }
}
