//! Code of which no instruction makes the root inactive, and whose start makes it active.
ghost use Rattle.std.specs.Prelude.{◌≡◌, ℕ, List, ◌∷◌, drop, Some, IfSome, IsTrue, slice_get};
ghost use Rattle.code_language.specs.Code.{Procedures, code_of, instr_of, instrs_of, instructions};
ghost use Rattle.code_language.specs.Instrs as spec;
ghost use Rattle.code_copies.specs.Rooted as rooted;
ghost use Rattle.code_copies.specs.Rooted.{NeverClears, MakesRoot};

use crate::root_facts::tells_root;
use code_language::{Instr, RawCode};

/// Whether an instruction makes the root inactive.
fn clears_root(instr: &Instr) -> bool
    ensures { instr_of instr.now ≡ spec.Clear 0 → IsTrue result }
{
    match instr {
        Instr::Clear(state) => *state == 0,
        Instr::Assign(_, _)
        | Instr::Emit(_)
        | Instr::Mark(_)
        | Instr::Keep(_)
        | Instr::Unless(_, _)
        | Instr::Skip(_)
        | Instr::Call(_, _)
        | Instr::Visit(_, _)
        | Instr::Send(_)
        | Instr::SendTo(_, _, _)
        | Instr::Play
        | Instr::Home(_)
        | Instr::Begin
        | Instr::Pass
        | Instr::Ret(_) => false,
    }
}

/// Whether no instruction of a procedure makes the root inactive.
fn keep_root(instrs: &[Instr]) -> bool
    ensures { IsTrue result
        → (i : ℕ) → slice_get (instrs_of instrs.now) i ≡ Some (spec.Clear 0) → ⊥ }
{
    for instr in instrs {
        if clears_root(instr) {
            return false;
        }
    }
    true
}

/// Whether no instruction of the code makes the root inactive.
///
/// Its time grows with the number of instructions.
pub(crate) fn never_clears(code: &RawCode) -> bool
    ensures { IsTrue result → NeverClears (code_of code.now).procedures }
{
    for instrs in code.procs.items() {
        if !keep_root(instrs.items()) {
            return false;
        }
    }
    true
}

/// Where a walk through a procedure goes on.
#[derive(Clone, Copy)]
struct Walk {
    /// How many instructions it passes over.
    over: u32,
    /// The home.
    home: Option<u32>,
}

/// Whether a run goes on in the same frame with the same home after an instruction, or ends by a
/// fault.
fn is_plain(instr: &Instr) -> bool
    ensures { result ≡ rooted.is_plain (instr_of instr.now) }
{
    match instr {
        Instr::Assign(_, _)
        | Instr::Emit(_)
        | Instr::Mark(_)
        | Instr::Clear(_)
        | Instr::Keep(_)
        | Instr::Begin => true,
        Instr::Unless(_, _)
        | Instr::Skip(_)
        | Instr::Call(_, _)
        | Instr::Visit(_, _)
        | Instr::Send(_)
        | Instr::SendTo(_, _, _)
        | Instr::Play
        | Instr::Home(_)
        | Instr::Pass
        | Instr::Ret(_) => false,
    }
}

/// Where a walk goes on after an instruction, with that home before it. None where paths part of
/// which neither is known to find the root active, and where the instruction calls, sends or may
/// return.
fn walk_on(home: Option<u32>, instr: &Instr) -> Option<Walk>
    ensures { IfSome result (λ to. (k : Procedures) (rest : List spec.Instr)
        → MakesRoot k to.home (drop to.over rest) → MakesRoot k home (instr_of instr.now ∷ rest)) }
{
    if is_plain(instr) {
        return Some(Walk { over: 0, home });
    }
    match instr {
        Instr::Unless(over, cond) => {
            if tells_root(home, cond) {
                Some(Walk { over: *over, home })
            } else {
                None
            }
        }
        Instr::Skip(over) => Some(Walk { over: *over, home }),
        Instr::Home(state) => Some(Walk {
            over: 0,
            home: Some(*state),
        }),
        Instr::Assign(_, _)
        | Instr::Emit(_)
        | Instr::Mark(_)
        | Instr::Clear(_)
        | Instr::Keep(_)
        | Instr::Call(_, _)
        | Instr::Visit(_, _)
        | Instr::Send(_)
        | Instr::SendTo(_, _, _)
        | Instr::Play
        | Instr::Begin
        | Instr::Pass
        | Instr::Ret(_) => None,
    }
}

/// Whether an instruction makes the root active.
fn marks_root(instr: &Instr) -> bool
    ensures { IsTrue result → instr_of instr.now ≡ spec.Mark 0 }
{
    match instr {
        Instr::Mark(state) => *state == 0,
        Instr::Assign(_, _)
        | Instr::Emit(_)
        | Instr::Clear(_)
        | Instr::Keep(_)
        | Instr::Unless(_, _)
        | Instr::Skip(_)
        | Instr::Call(_, _)
        | Instr::Visit(_, _)
        | Instr::Send(_)
        | Instr::SendTo(_, _, _)
        | Instr::Play
        | Instr::Home(_)
        | Instr::Begin
        | Instr::Pass
        | Instr::Ret(_) => false,
    }
}

/// Whether a procedure that begins with the root as its home makes the root active, by the one path
/// that doesn't find it active.
fn makes_root(instrs: &[Instr]) -> bool
    ensures { IsTrue result → (k : Procedures) → MakesRoot k (Some 0) (instrs_of instrs.now) }
{
    let mut home = Some(0);
    let mut over = 0;
    for instr in instrs {
        if over > 0 {
            over -= 1;
        } else {
            if marks_root(instr) {
                return true;
            }
            let Some(to) = walk_on(home, instr) else {
                return false;
            };
            home = to.home;
            over = to.over;
        }
    }
    false
}

/// Whether the start of the code makes the root active, before it calls or sends.
///
/// Its time grows with the number of instructions of the start.
pub(crate) fn starts_root(code: &RawCode) -> bool
    ensures { IsTrue result → MakesRoot (code_of code.now).procedures (Some 0)
        (instructions (code_of code.now).procedures (code_of code.now).procedures.start) }
{
    match code.procs.items().get(code.start as usize) {
        Some(instrs) => makes_root(instrs.items()),
        None => false,
    }
}
