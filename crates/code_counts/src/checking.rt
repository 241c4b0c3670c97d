//! The check that the numbers at all places of code are enough.
ghost use Rattle.std.specs.Prelude.{◌≡◌, ◌≤◌, ◌<◌, ℕ, Some, IsTrue, slice_get};
ghost use Rattle.code_language.specs.Code.{code_of, instr_of, instrs_of};
ghost use Rattle.code_language.specs.Instrs as forms;
ghost use Rattle.code_counts.specs.Certificate as spec;
ghost use Rattle.code_counts.specs.Certificate.{IsCertificate, IsEnough, IsMost};
ghost use Rattle.code_counts.specs.Rows.{numbers_of};

use crate::numbers::{Counted, Mark};
use crate::parts::{brings, joined, mark_of, of_play};
use code_language::{INSTR_LIMIT, Instr, RawCode};

/// A place of code, and what is counted there.
#[derive(Clone, Copy)]
struct Spot {
    /// What is counted.
    counted: Counted,
    /// The procedure of a reaction.
    react: u32,
    /// The procedure.
    proc: usize,
    /// The place.
    place: usize,
}

/// Whether what is left at a place is enough for its instruction and for what is left at another
/// place.
fn leaves_enough(rows: &[Vec<Mark>], spot: Spot, instr: &Instr, next: usize) -> bool
    ensures { IsTrue result → spec.LeavesEnough spot.counted (numbers_of rows.now) spot.react
        spot.proc spot.place (instr_of instr.now) next }
{
    let here = mark_of(rows, spot.proc, spot.place);
    let brought = brings(spot.counted, rows, spot.react, here.owed, instr);
    let after = mark_of(rows, spot.proc, next).left as u64;
    joined(spot.counted, brought, after) <= here.left as u64
}

/// Whether a place may be next.
fn goes_on(rows: &[Vec<Mark>], spot: Spot, instr: &Instr, next: usize) -> bool
    ensures { IsTrue result → spec.GoesOn spot.counted (numbers_of rows.now) spot.react spot.proc
        spot.place (instr_of instr.now) next }
{
    leaves_enough(rows, spot, instr, next)
        && mark_of(rows, spot.proc, spot.place).owed <= mark_of(rows, spot.proc, next).owed
}

/// Whether a call with a note owes enough.
fn hands_on(rows: &[Vec<Mark>], spot: Spot, proc: u32, note: Option<u32>) -> bool
    ensures { IsTrue result → spec.HandsOn spot.counted (numbers_of rows.now)
        ((numbers_of rows.now).owed spot.proc spot.place) proc note }
{
    let owed = mark_of(rows, spot.proc, spot.place).owed as u64;
    let own = of_play(spot.counted, rows, note);
    joined(spot.counted, own, owed) <= mark_of(rows, proc as usize, 0).owed as u64
}

/// Whether the numbers at a place are enough for the instruction there.
fn is_enough(rows: &[Vec<Mark>], spot: Spot, instr: &Instr) -> bool
    requires { spot.place < INSTR_LIMIT }
    ensures { IsTrue result → IsEnough spot.counted (numbers_of rows.now) spot.react spot.proc
        spot.place (instr_of instr.now) }
{
    let next = spot.place + 1;
    match instr {
        Instr::Assign(_, _)
        | Instr::Emit(_)
        | Instr::Mark(_)
        | Instr::Clear(_)
        | Instr::Keep(_)
        | Instr::Send(_)
        | Instr::SendTo(_, _, _)
        | Instr::Play
        | Instr::Home(_)
        | Instr::Pass => goes_on(rows, spot, instr, next),
        Instr::Unless(over, _) => {
            goes_on(rows, spot, instr, next) && goes_on(rows, spot, instr, next + *over as usize)
        }
        Instr::Skip(over) => goes_on(rows, spot, instr, next + *over as usize),
        Instr::Call(proc, note) | Instr::Visit(proc, note) => {
            goes_on(rows, spot, instr, next) && hands_on(rows, spot, *proc, *note)
        }
        Instr::Begin => leaves_enough(rows, spot, instr, next),
        Instr::Ret(_) => true,
    }
}

/// Whether the numbers are enough at all places of a procedure.
fn are_enough(
    counted: Counted,
    rows: &[Vec<Mark>],
    react: u32,
    proc: usize,
    instrs: &[Instr],
) -> bool
    ensures { IsTrue result → (i : ℕ) (x : forms.Instr)
        → slice_get (instrs_of instrs.now) i ≡ Some x
        → IsEnough counted (numbers_of rows.now) react proc i x }
{
    if instrs.len() > INSTR_LIMIT {
        return false;
    }
    for (place, instr) in instrs.iter().enumerate() {
        let spot = Spot {
            counted,
            react,
            proc,
            place,
        };
        if !is_enough(rows, spot, instr) {
            return false;
        }
    }
    true
}

/// Whether the numbers are enough at all places of the code.
pub(crate) fn is_certificate(counted: Counted, rows: &[Vec<Mark>], code: &RawCode) -> bool
    ensures { IsTrue result
        → IsCertificate counted (code_of code.now).procedures (numbers_of rows.now) }
{
    for (proc, instrs) in code.procs.items().iter().enumerate() {
        if !are_enough(counted, rows, code.react, proc, instrs.items()) {
            return false;
        }
    }
    true
}

/// The most that the start and a reaction bring, where the numbers are enough.
pub(crate) fn most_of(rows: &[Vec<Mark>], code: &RawCode) -> u32
    ensures { IsMost (code_of code.now).procedures (numbers_of rows.now) result }
{
    let start = mark_of(rows, code.start as usize, 0).left;
    let reaction = mark_of(rows, code.react as usize, 0).left;
    start.max(reaction)
}
