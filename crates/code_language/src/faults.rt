//! The first fault of procedures.
ghost use Rattle.std.specs.Prelude.{◌≡◌, ◌≤◌, nat_lt, false, List as Items, length};
ghost use Rattle.std.specs.List.{list_any};
ghost use Rattle.flow_base.specs.Lists.{items_of};
ghost use Rattle.active_config.specs.Tree.{parent_of, comp_of, is_or};
ghost use Rattle.code_language.specs.Code.{code_of, cond_of, instr_of, instrs_of};
ghost use Rattle.code_language.specs.Instrs as code;
ghost use Rattle.code_language.specs.WellFormed as spec;

use crate::code::RawCode;
use crate::fault::{CodeFault, CodeKind};
use crate::instr::{Cond, Instr};
use crate::limits::{INSTR_LIMIT, PROC_LIMIT};
use crate::naming::instr_known;
use crate::typing::instr_typed;
use flow_base::List;

/// A fault at a place.
pub fn fault_at(kind: CodeKind, proc: u32, place: u32) -> Option<CodeFault>
    ensures { result ≡ spec.fault_at kind proc place }
{
    Some(CodeFault { kind, proc, place })
}

/// Whether there are more than `PROC_LIMIT` procedures, or one has more than `INSTR_LIMIT`
/// instructions.
pub fn too_many(raw: &RawCode) -> bool
    ensures { result ≡ spec.too_many (code_of raw.now).procedures.procs }
{
    raw.procs.items().len() > PROC_LIMIT || has_long(raw.procs.items())
}

/// Whether one of the procedures has more instructions than it may have.
fn has_long(procs: &[List<Instr>]) -> bool
    ensures { result ≡ list_any (λ instrs. nat_lt INSTR_LIMIT (length (items_of instrs))) procs.now }
{
    procs
        .iter()
        .any(|instrs| instrs.items().len() > INSTR_LIMIT)
}

/// Whether the instruction passes over fewer instructions than stand after it.
#[tactic(auto, unfolding(crate::specs::WellFormed::skips_within))]
fn skips_within(behind: usize, instr: &Instr) -> bool
    ensures { result ≡ spec.skips_within behind (instr_of instr.now) }
{
    match instr {
        Instr::Unless(over, _) | Instr::Skip(over) => (*over as usize) < behind,
        Instr::Assign(_, _)
        | Instr::Emit(_)
        | Instr::Mark(_)
        | Instr::Clear(_)
        | Instr::Keep(_)
        | Instr::Call(_, _)
        | Instr::Visit(_, _)
        | Instr::Send(_)
        | Instr::SendTo(_, _, _)
        | Instr::Play
        | Instr::Home(_)
        | Instr::Begin
        | Instr::Pass
        | Instr::Ret(_) => true,
    }
}

/// Whether the instruction, in procedure `p`, calls a lower one if it is a `Call`.
#[tactic(auto, unfolding(crate::specs::WellFormed::calls_lower))]
fn calls_lower(p: u32, instr: &Instr) -> bool
    ensures { result ≡ spec.calls_lower p (instr_of instr.now) }
{
    match instr {
        Instr::Call(proc, _) => *proc < p,
        Instr::Assign(_, _)
        | Instr::Emit(_)
        | Instr::Mark(_)
        | Instr::Clear(_)
        | Instr::Keep(_)
        | Instr::Unless(_, _)
        | Instr::Skip(_)
        | Instr::Visit(_, _)
        | Instr::Send(_)
        | Instr::SendTo(_, _, _)
        | Instr::Play
        | Instr::Home(_)
        | Instr::Begin
        | Instr::Pass
        | Instr::Ret(_) => true,
    }
}

/// Whether the instruction returns, whatever the last result is.
#[tactic(auto, unfolding(crate::specs::WellFormed::is_ret))]
fn is_ret(instr: &Instr) -> bool
    ensures { result ≡ spec.is_ret (instr_of instr.now) }
{
    matches!(instr, Instr::Ret(_))
}

/// Whether the instruction returns, if none stands after it.
fn last_returns(instr: &Instr, behind: usize) -> bool
    ensures { (rest : Items code.Instr) → length rest ≡ behind →
        result ≡ spec.last_returns (instr_of instr.now) rest }
{
    behind > 0 || is_ret(instr)
}

/// Whether a state can be remembered: its parent is an OR.
fn can_be_kept(raw: &RawCode, state: u32) -> bool
    ensures { result ≡ spec.can_be_kept (code_of raw.now).tree state }
{
    match parent_of(raw, state) {
        Some(parent) => is_or(raw, parent),
        None => false,
    }
}

/// The parent of a state, none where there is no such state.
#[tactic(auto, unfolding(active_config::specs::Tree::parent_of))]
fn parent_of(raw: &RawCode, state: u32) -> Option<u32>
    ensures { result ≡ parent_of (code_of raw.now).tree state }
{
    raw.states.items().get(state as usize)?.parent
}

/// Whether a state is an OR.
#[tactic(auto, unfolding(active_config::specs::Tree::comp_of))]
fn is_or(raw: &RawCode, state: u32) -> bool
    ensures { result ≡ is_or (comp_of (code_of raw.now).tree state) }
{
    match raw.states.items().get(state as usize) {
        Some(state) => state.comp.is_or(),
        None => false,
    }
}

/// Whether a condition looks only at the memory of a state that can be remembered.
#[tactic(auto, unfolding(crate::specs::WellFormed::cond_keeps))]
fn cond_keeps(raw: &RawCode, cond: &Cond) -> bool
    ensures { result ≡ spec.cond_keeps (spec.known_of (code_of raw.now)) (cond_of cond.now) }
{
    match cond {
        Cond::Last(state) => can_be_kept(raw, *state),
        Cond::On(_)
        | Cond::Bare(_)
        | Cond::OnHome
        | Cond::BareHome
        | Cond::Current(_)
        | Cond::Result(_)
        | Cond::Test(_) => true,
    }
}

/// Whether an instruction keeps only a state that can be remembered.
#[tactic(auto, unfolding(crate::specs::WellFormed::instr_keeps))]
fn instr_keeps(raw: &RawCode, instr: &Instr) -> bool
    ensures { result ≡ spec.instr_keeps (spec.known_of (code_of raw.now)) (instr_of instr.now) }
{
    match instr {
        Instr::Keep(state) => can_be_kept(raw, *state),
        Instr::Unless(_, cond) => cond_keeps(raw, cond),
        Instr::Assign(_, _)
        | Instr::Emit(_)
        | Instr::Mark(_)
        | Instr::Clear(_)
        | Instr::Skip(_)
        | Instr::Call(_, _)
        | Instr::Visit(_, _)
        | Instr::Send(_)
        | Instr::SendTo(_, _, _)
        | Instr::Play
        | Instr::Home(_)
        | Instr::Begin
        | Instr::Pass
        | Instr::Ret(_) => true,
    }
}

/// The first fault of the instruction at that place of procedure `p`, where that many instructions
/// stand after it.
fn instr_fault(raw: &RawCode, p: u32, place: u32, instr: &Instr, behind: usize) -> Option<CodeFault>
    ensures { (rest : Items code.Instr) → length rest ≡ behind →
        result ≡ spec.instr_fault (spec.known_of (code_of raw.now)) p place (instr_of instr.now) rest }
{
    if !instr_known(raw, instr) {
        fault_at(CodeKind::BadNumber, p, place)
    } else if !skips_within(behind, instr) {
        fault_at(CodeKind::SkipOut, p, place)
    } else if !calls_lower(p, instr) {
        fault_at(CodeKind::CallNotLower, p, place)
    } else if !instr_typed(raw, instr) {
        fault_at(CodeKind::CodeTypes, p, place)
    } else if !last_returns(instr, behind) {
        fault_at(CodeKind::NoRet, p, place)
    } else if !instr_keeps(raw, instr) {
        fault_at(CodeKind::BadKeep, p, place)
    } else {
        None
    }
}

/// The first fault of procedure `p`, which has these instructions.
fn proc_fault(raw: &RawCode, p: u32, instrs: &[Instr]) -> Option<CodeFault>
    requires { length instrs.now ≤ INSTR_LIMIT }
    ensures { result ≡ spec.proc_fault (spec.known_of (code_of raw.now)) p (instrs_of instrs.now) }
{
    if instrs.is_empty() {
        return fault_at(CodeKind::NoRet, p, 0);
    }
    for place in 0..instrs.len() {
        let behind = instrs.len() - place - 1;
        let fault = instr_fault(raw, p, place as u32, &instrs[place], behind);
        if fault.is_some() {
            return fault;
        }
    }
    None
}

/// The first fault of the procedures.
pub fn procs_fault(raw: &RawCode) -> Option<CodeFault>
    requires { spec.too_many (code_of raw.now).procedures.procs ≡ false }
    ensures { result ≡ spec.procs_fault (spec.known_of (code_of raw.now)) 0 (code_of raw.now).procedures.procs }
{
    for (p, instrs) in raw.procs.items().iter().enumerate() {
        let fault = proc_fault(raw, p as u32, instrs.items());
        if fault.is_some() {
            return fault;
        }
    }
    None
}
