//! Instructions that name copies of what they named.
ghost use Rattle.std.specs.Prelude.{◌≡◌, ◌<◌, IfOk, IfSome, IsTrue, length};
ghost use Rattle.code_language.specs.Code.{instr_of};
ghost use Rattle.code_language.specs.Instrs as instrs;
ghost use Rattle.code_shrink.specs.Follows.{note_by, renamed};
ghost use Rattle.code_shrink.specs.Numbers.{number_by};

use crate::plan::Named;
use actions::copy_expr;
use code_language::Instr;
use code_shrink::{copy_cond, number_at};
use flow_base::Memory;
use std::alloc::Global;

/// Whether the copy is one of the procedure.
pub(crate) fn is_copy(origins: &[u32], copy: u32, proc: u32) -> bool
    requires { 0 < length origins.now }
    ensures { IsTrue result → number_by origins.now copy ≡ proc }
{
    number_at(origins, copy) == proc
}

/// Whether both notes are none, or the first one is a copy of the second one.
fn is_note_copy(origins: &[u32], copy: Option<u32>, note: Option<u32>) -> bool
    requires { 0 < length origins.now }
    ensures { IsTrue result → note_by (number_by origins.now) copy ≡ note }
{
    match copy {
        None => note.is_none(),
        Some(named) => match note {
            None => false,
            Some(proc) => is_copy(origins, named, proc),
        },
    }
}

/// Whether these are copies of the procedure and of the note.
fn are_copies(origins: &[u32], named: Named, proc: u32, note: Option<u32>) -> bool
    requires { 0 < length origins.now }
    ensures proc { IsTrue result → number_by origins.now named.proc ≡ proc }
    ensures note { IsTrue result → note_by (number_by origins.now) named.note ≡ note }
{
    is_copy(origins, named.proc, proc) && is_note_copy(origins, named.note, note)
}

/// A call of the copy, if that is one of the procedure, with a copy of the note.
#[tactic(auto, unfolding(code_shrink::specs::Follows::renamed))]
fn call_to(origins: &[u32], named: Named, proc: u32, note: Option<u32>) -> Option<Instr>
    requires { 0 < length origins.now }
    ensures { IfSome result (λ made. renamed (number_by origins.now) (instr_of made)
        ≡ instrs.Call proc note) }
{
    if are_copies(origins, named, proc, note) {
        Some(Instr::Call(named.proc, named.note))
    } else {
        None
    }
}

/// A visit of the copy, if that is one of the procedure, with a copy of the note.
#[tactic(auto, unfolding(code_shrink::specs::Follows::renamed))]
fn visit_to(origins: &[u32], named: Named, proc: u32, note: Option<u32>) -> Option<Instr>
    requires { 0 < length origins.now }
    ensures { IfSome result (λ made. renamed (number_by origins.now) (instr_of made)
        ≡ instrs.Visit proc note) }
{
    if are_copies(origins, named, proc, note) {
        Some(Instr::Visit(named.proc, named.note))
    } else {
        None
    }
}

/// A send to the copy, if that is one of the procedure.
#[tactic(auto, unfolding(code_shrink::specs::Follows::renamed))]
fn send_to(origins: &[u32], copy: u32, event: u32, state: u32, proc: u32) -> Option<Instr>
    requires { 0 < length origins.now }
    ensures { IfSome result (λ made. renamed (number_by origins.now) (instr_of made)
        ≡ instrs.SendTo event state proc) }
{
    if is_copy(origins, copy, proc) {
        Some(Instr::SendTo(event, state, copy))
    } else {
        None
    }
}

/// An equal instruction but that it names these copies, if they are copies of what it names.
#[tactic(auto, unfolding(code_shrink::specs::Follows::renamed))]
pub(crate) fn naming_copies(
    alloc: Global,
    origins: &[u32],
    named: Named,
    instr: &Instr,
) -> Result<Option<Instr>, Memory>
    requires { 0 < length origins.now }
    ensures { IfOk result (λ found. IfSome found (λ made.
        renamed (number_by origins.now) (instr_of made) ≡ instr_of instr.now)) }
{
    match instr {
        Instr::Assign(datum, expr) => Ok(Some(Instr::Assign(*datum, copy_expr(alloc, expr)?))),
        Instr::Emit(event) => Ok(Some(Instr::Emit(*event))),
        Instr::Mark(state) => Ok(Some(Instr::Mark(*state))),
        Instr::Clear(state) => Ok(Some(Instr::Clear(*state))),
        Instr::Keep(state) => Ok(Some(Instr::Keep(*state))),
        Instr::Unless(over, cond) => Ok(Some(Instr::Unless(*over, copy_cond(alloc, cond)?))),
        Instr::Skip(over) => Ok(Some(Instr::Skip(*over))),
        Instr::Call(proc, note) => Ok(call_to(origins, named, *proc, *note)),
        Instr::Visit(proc, note) => Ok(visit_to(origins, named, *proc, *note)),
        Instr::Send(event) => Ok(Some(Instr::Send(*event))),
        Instr::SendTo(event, state, proc) => {
            Ok(send_to(origins, named.proc, *event, *state, *proc))
        }
        Instr::Play => Ok(Some(Instr::Play)),
        Instr::Home(state) => Ok(Some(Instr::Home(*state))),
        Instr::Begin => Ok(Some(Instr::Begin)),
        Instr::Pass => Ok(Some(Instr::Pass)),
        Instr::Ret(value) => Ok(Some(Instr::Ret(*value))),
    }
}
