//! The lines of states and instructions, printed.
ghost use Rattle.std.specs.Prelude.{◌≡◌, ◌++◌, ◌∷◌, [], decimal, string_bytes, OnOk};
ghost use Rattle.code_language.specs.Code as code;
ghost use Rattle.code_lines.specs.Spelling as spec;

use code_fields::{comp_word, print_expr, print_name, print_number};
use code_language::{Cond, Instr, RawState};
use std::alloc::AllocError;

/// Appends the line of a state.
pub fn print_state(out: &mut String, state: &RawState) -> Result<(), AllocError>
    ensures line { OnOk result
        (string_bytes out.new ≡ string_bytes out.old ++ (spec.state_line state.now ++ 10 ∷ [])) }
    ensures number { OnOk result (spec.HasParent state.now.parent) }
{
    print_number_or_none(out, "s ", state.parent)?;
    out.push_str(" ")?;
    out.push_str(comp_word(state.comp))?;
    print_name(out, &state.name)
}

/// Appends words, and a number or `-` for none.
fn print_number_or_none(
    out: &mut String,
    words: &str,
    number: Option<u32>,
) -> Result<(), AllocError>
    ensures words { OnOk result
        (string_bytes out.new ≡ string_bytes out.old ++ (words.now ++ spec.note_word number)) }
    ensures number { OnOk result (spec.HasNote number) }
{
    match number {
        Some(number) => print_number(out, words, u64::from(number)),
        None => {
            out.push_str(words)?;
            out.push_str("-")?;
            Ok(())
        }
    }
}

/// Appends the line of an instruction, without a newline.
pub fn print_instr(out: &mut String, instr: &Instr) -> Result<(), AllocError>
    ensures line { OnOk result (string_bytes out.new
        ≡ string_bytes out.old ++ spec.instr_line (code.instr_of instr.now)) }
    ensures numbers { OnOk result (spec.HasNumbers (code.instr_of instr.now)) }
{
    match instr {
        Instr::Assign(datum, expr) => {
            print_number(out, "set ", u64::from(*datum))?;
            out.push_str(" ")?;
            print_expr(out, expr)
        }
        Instr::Unless(count, cond) => {
            print_number(out, "unless ", u64::from(*count))?;
            out.push_str(" ")?;
            print_cond(out, cond)
        }
        Instr::Emit(event) => print_number(out, "emit ", u64::from(*event)),
        Instr::Mark(state) => print_number(out, "mark ", u64::from(*state)),
        Instr::Clear(state) => print_number(out, "clear ", u64::from(*state)),
        Instr::Keep(state) => print_number(out, "keep ", u64::from(*state)),
        Instr::Skip(count) => print_number(out, "skip ", u64::from(*count)),
        Instr::Call(proc, note) => print_call(out, "call ", *proc, *note),
        Instr::Visit(proc, note) => print_call(out, "visit ", *proc, *note),
        Instr::Send(event) => print_number(out, "send ", u64::from(*event)),
        Instr::SendTo(event, state, proc) => {
            print_number(out, "sendto ", u64::from(*event))?;
            print_number(out, " ", u64::from(*state))?;
            print_number(out, " ", u64::from(*proc))
        }
        Instr::Play => out.push_str("play"),
        Instr::Home(state) => print_number(out, "home ", u64::from(*state)),
        Instr::Begin => out.push_str("begin"),
        Instr::Pass => out.push_str("pass"),
        Instr::Ret(value) => print_number(out, "ret ", u64::from(*value)),
    }
}

/// Appends words, a procedure and a note.
fn print_call(out: &mut String, words: &str, proc: u32, note: Option<u32>) -> Result<(), AllocError>
    ensures words { OnOk result (string_bytes out.new
        ≡ string_bytes out.old ++ (words.now ++ (decimal proc ++ (32 ∷ spec.note_word note)))) }
    ensures note { OnOk result (spec.HasNote note) }
{
    print_number(out, words, u64::from(proc))?;
    print_number_or_none(out, " ", note)
}

/// Appends the words of a condition.
fn print_cond(out: &mut String, cond: &Cond) -> Result<(), AllocError>
    ensures words { OnOk result (string_bytes out.new
        ≡ string_bytes out.old ++ spec.cond_words (code.cond_of cond.now)) }
    ensures numbers { OnOk result (spec.CondHasNumbers (code.cond_of cond.now)) }
{
    match cond {
        Cond::On(state) => print_number(out, "on ", u64::from(*state)),
        Cond::Bare(state) => print_number(out, "bare ", u64::from(*state)),
        Cond::OnHome => out.push_str("onhome"),
        Cond::BareHome => out.push_str("barehome"),
        Cond::Current(event) => print_number(out, "event ", u64::from(*event)),
        Cond::Result(value) => print_number(out, "result ", u64::from(*value)),
        Cond::Test(expr) => {
            out.push_str("expr ")?;
            print_expr(out, expr)
        }
        Cond::Last(state) => print_number(out, "last ", u64::from(*state)),
    }
}
