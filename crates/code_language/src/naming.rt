//! Whether what instructions name is there.
ghost use Rattle.std.specs.Prelude.{◌≡◌};
ghost use Rattle.actions.specs.Trees.{expr_of};
ghost use Rattle.code_language.specs.Code.{code_of, cond_of, instr_of};
ghost use Rattle.code_language.specs.WellFormed as spec;

use crate::code::RawCode;
use crate::instr::{Cond, Instr};
use actions::Expr;

/// Whether there is a state of that number.
fn is_state(raw: &RawCode, state: u32) -> bool
    ensures { result ≡ spec.is_state (spec.known_of (code_of raw.now)) state }
{
    (state as usize) < raw.states.items().len()
}

/// Whether there is a datum of that number.
fn is_datum(raw: &RawCode, datum: u32) -> bool
    ensures { result ≡ spec.is_datum (spec.known_of (code_of raw.now)) datum }
{
    (datum as usize) < raw.vars.items().len()
}

/// Whether there is an event of that number.
fn is_event(raw: &RawCode, event: u32) -> bool
    ensures { result ≡ spec.is_event (spec.known_of (code_of raw.now)) event }
{
    (event as usize) < raw.events.items().len()
}

/// Whether there is a procedure of that number.
fn is_proc(raw: &RawCode, proc: u32) -> bool
    ensures { result ≡ spec.is_proc (spec.known_of (code_of raw.now)) proc }
{
    (proc as usize) < raw.procs.items().len()
}

/// Whether the procedures of the start and of a reaction are there.
pub fn starts_known(raw: &RawCode) -> bool
    ensures { result ≡ spec.starts_known (code_of raw.now).procedures }
{
    is_proc(raw, raw.start) && is_proc(raw, raw.react)
}

/// Whether the data and the states that an expression names are there.
#[tactic(auto, unfolding(crate::specs::WellFormed::expr_known))]
fn expr_known(raw: &RawCode, expr: &Expr) -> bool
    ensures { result ≡ spec.expr_known (spec.known_of (code_of raw.now)) (expr_of expr.now) }
{
    match expr {
        Expr::Lit(_) | Expr::Flag(_) => true,
        Expr::Read(datum) => is_datum(raw, *datum),
        Expr::Active(state) => is_state(raw, *state),
        Expr::Neg(inner) | Expr::Not(inner) => expr_known(raw, inner),
        Expr::Bin(_, left, right) => expr_known(raw, left) && expr_known(raw, right),
    }
}

/// Whether what a condition names is there.
#[tactic(auto, unfolding(crate::specs::WellFormed::cond_known))]
fn cond_known(raw: &RawCode, cond: &Cond) -> bool
    ensures { result ≡ spec.cond_known (spec.known_of (code_of raw.now)) (cond_of cond.now) }
{
    match cond {
        Cond::On(state) | Cond::Bare(state) | Cond::Last(state) => is_state(raw, *state),
        Cond::Current(event) => is_event(raw, *event),
        Cond::Test(expr) => expr_known(raw, expr),
        Cond::OnHome | Cond::BareHome | Cond::Result(_) => true,
    }
}

/// Whether a note, where there is one, is a procedure.
fn note_known(raw: &RawCode, note: Option<u32>) -> bool
    ensures { result ≡ spec.note_known (spec.known_of (code_of raw.now)) note }
{
    match note {
        Some(proc) => is_proc(raw, proc),
        None => true,
    }
}

/// Whether what an instruction names is there.
#[tactic(auto, unfolding(crate::specs::WellFormed::instr_known))]
pub fn instr_known(raw: &RawCode, instr: &Instr) -> bool
    ensures { result ≡ spec.instr_known (spec.known_of (code_of raw.now)) (instr_of instr.now) }
{
    match instr {
        Instr::Assign(datum, expr) => is_datum(raw, *datum) && expr_known(raw, expr),
        Instr::Emit(event) | Instr::Send(event) => is_event(raw, *event),
        Instr::Mark(state) | Instr::Clear(state) | Instr::Keep(state) | Instr::Home(state) => {
            is_state(raw, *state)
        }
        Instr::Unless(_, cond) => cond_known(raw, cond),
        Instr::Call(proc, note) | Instr::Visit(proc, note) => {
            is_proc(raw, *proc) && note_known(raw, *note)
        }
        Instr::SendTo(event, state, proc) => {
            is_event(raw, *event) && is_state(raw, *state) && is_proc(raw, *proc)
        }
        Instr::Skip(_) | Instr::Play | Instr::Begin | Instr::Pass | Instr::Ret(_) => true,
    }
}
