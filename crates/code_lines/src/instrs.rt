//! The lines of instructions.
ghost use Rattle.std.specs.Prelude.{◌≡◌, option_map, IfOk};
ghost use Rattle.code_language.specs.Code as code;
ghost use Rattle.code_lines.specs.Fields as spec;

use crate::format::{Format, is_in};
use crate::states::note_of;
use crate::words::{CondWord, PlainWord, Word, cond_word_of, word_of};
use code_fields::{cut_at, expr_of, number_of};
use code_language::{Cond, Instr};
use std::alloc::{AllocError, Global};

/// The instruction of a line, if it is one of that format.
#[tactic(auto, unfolding(crate::specs::Fields::instr_in))]
pub fn instr_in(alloc: Global, format: Format, line: &[u8]) -> Result<Option<Instr>, AllocError>
    ensures { IfOk result (λ instr.
        option_map code.instr_of instr ≡ spec.instr_in format line.now) }
{
    let Some(instr) = instr_of(alloc, line)? else {
        return Ok(None);
    };
    if is_in(format, &instr) {
        Ok(Some(instr))
    } else {
        Ok(None)
    }
}

/// The instruction of a line.
#[tactic(auto, unfolding(crate::specs::Fields::instr_of))]
fn instr_of(alloc: Global, line: &[u8]) -> Result<Option<Instr>, AllocError>
    ensures { IfOk result (λ instr. option_map code.instr_of instr ≡ spec.instr_of line.now) }
{
    let Some(parts) = cut_at(line, b' ') else {
        return Ok(bare_instr(line));
    };
    let Some(word) = word_of(parts.front) else {
        return Ok(None);
    };
    match word {
        Word::Assign => set_of(alloc, parts.rest),
        Word::Unless => unless_of(alloc, parts.rest),
        Word::Plain(word) => Ok(plain_with(parts.rest, word)),
    }
}

/// An instruction of one word.
fn bare_instr(word: &[u8]) -> Option<Instr>
    ensures { option_map code.instr_of result ≡ spec.bare_instr word.now }
{
    if word == b"play".as_slice() {
        Some(Instr::Play)
    } else if word == b"begin".as_slice() {
        Some(Instr::Begin)
    } else if word == b"pass".as_slice() {
        Some(Instr::Pass)
    } else {
        None
    }
}

/// An instruction without expression, from what follows its first word.
fn plain_with(args: &[u8], word: PlainWord) -> Option<Instr>
    ensures { option_map code.instr_of result ≡ spec.plain_with args.now word }
{
    let instr = match word {
        PlainWord::Emit => Instr::Emit(number_of(args)?),
        PlainWord::Mark => Instr::Mark(number_of(args)?),
        PlainWord::Clear => Instr::Clear(number_of(args)?),
        PlainWord::Keep => Instr::Keep(number_of(args)?),
        PlainWord::Skip => Instr::Skip(number_of(args)?),
        PlainWord::Call => return call_of(args),
        PlainWord::Visit => return visit_of(args),
        PlainWord::Send => Instr::Send(number_of(args)?),
        PlainWord::SendTo => return send_to_of(args),
        PlainWord::Home => Instr::Home(number_of(args)?),
        PlainWord::Ret => Instr::Ret(number_of(args)?),
    };
    Some(instr)
}

/// A `call` after its first word.
fn call_of(args: &[u8]) -> Option<Instr>
    ensures { option_map code.instr_of result ≡ spec.plain_with args.now PlainWord.Call }
{
    let parts = cut_at(args, b' ')?;
    let proc = number_of(parts.front)?;
    let note = note_of(parts.rest)?;
    Some(Instr::Call(proc, note))
}

/// A `visit` after its first word.
fn visit_of(args: &[u8]) -> Option<Instr>
    ensures { option_map code.instr_of result ≡ spec.plain_with args.now PlainWord.Visit }
{
    let parts = cut_at(args, b' ')?;
    let proc = number_of(parts.front)?;
    let note = note_of(parts.rest)?;
    Some(Instr::Visit(proc, note))
}

/// A `sendto` after its first word.
fn send_to_of(args: &[u8]) -> Option<Instr>
    ensures { option_map code.instr_of result ≡ spec.plain_with args.now PlainWord.SendTo }
{
    let parts = cut_at(args, b' ')?;
    let event = number_of(parts.front)?;
    let more = cut_at(parts.rest, b' ')?;
    let state = number_of(more.front)?;
    let proc = number_of(more.rest)?;
    Some(Instr::SendTo(event, state, proc))
}

/// A `set` after its first word.
fn set_of(alloc: Global, args: &[u8]) -> Result<Option<Instr>, AllocError>
    ensures { IfOk result (λ instr.
        option_map code.instr_of instr ≡ spec.instr_with args.now Word.Assign) }
{
    let Some(parts) = cut_at(args, b' ') else {
        return Ok(None);
    };
    let Some(datum) = number_of(parts.front) else {
        return Ok(None);
    };
    match expr_of(alloc, parts.rest)? {
        Some(expr) => Ok(Some(Instr::Assign(datum, expr))),
        None => Ok(None),
    }
}

/// An `unless` after its first word.
fn unless_of(alloc: Global, args: &[u8]) -> Result<Option<Instr>, AllocError>
    ensures { IfOk result (λ instr.
        option_map code.instr_of instr ≡ spec.instr_with args.now Word.Unless) }
{
    let Some(parts) = cut_at(args, b' ') else {
        return Ok(None);
    };
    let Some(count) = number_of(parts.front) else {
        return Ok(None);
    };
    match cond_of(alloc, parts.rest)? {
        Some(cond) => Ok(Some(Instr::Unless(count, cond))),
        None => Ok(None),
    }
}

/// The condition of its words.
#[tactic(auto, unfolding(crate::specs::Fields::cond_of))]
fn cond_of(alloc: Global, text: &[u8]) -> Result<Option<Cond>, AllocError>
    ensures { IfOk result (λ cond. option_map code.cond_of cond ≡ spec.cond_of text.now) }
{
    let Some(parts) = cut_at(text, b' ') else {
        return Ok(bare_cond(text));
    };
    match cond_word_of(parts.front) {
        Some(word) => cond_with(alloc, parts.rest, word),
        None => Ok(None),
    }
}

/// A condition of one word.
fn bare_cond(word: &[u8]) -> Option<Cond>
    ensures { option_map code.cond_of result ≡ spec.bare_cond word.now }
{
    if word == b"onhome".as_slice() {
        Some(Cond::OnHome)
    } else if word == b"barehome".as_slice() {
        Some(Cond::BareHome)
    } else {
        None
    }
}

/// A condition, from what follows its first word.
fn cond_with(alloc: Global, args: &[u8], word: CondWord) -> Result<Option<Cond>, AllocError>
    ensures { IfOk result (λ cond.
        option_map code.cond_of cond ≡ spec.cond_with args.now word) }
{
    match word {
        CondWord::On => Ok(number_of(args).map(|state| Cond::On(state))),
        CondWord::Bare => Ok(number_of(args).map(|state| Cond::Bare(state))),
        CondWord::Current => Ok(number_of(args).map(|event| Cond::Current(event))),
        CondWord::Result => Ok(number_of(args).map(|value| Cond::Result(value))),
        CondWord::Last => Ok(number_of(args).map(|state| Cond::Last(state))),
        CondWord::Test => match expr_of(alloc, args)? {
            Some(expr) => Ok(Some(Cond::Test(expr))),
            None => Ok(None),
        },
    }
}
