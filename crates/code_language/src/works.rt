//! The works of procedures.
ghost use Rattle.std.specs.Prelude.{
  ◌≡◌,
  ◌+◌,
  ◌*◌,
  ◌<◌,
  ◌≤◌,
  ℕ,
  None,
  false,
  nat_lt,
  IfOk,
  IfErr,
  OnOk,
  length,
  reverse,
  slice_index,
};
ghost use Rattle.std.specs.List.{list_any};
ghost use Rattle.flow_base.specs.Lists.{items_of};
ghost use Rattle.code_language.specs.Acceptance.{IsEndOf, procs_of};
ghost use Rattle.code_language.specs.Code.{instr_of, instrs_of};
ghost use Rattle.code_language.specs.Measures as spec;
ghost use Rattle.code_language.specs.WellFormed.{first_over};

use crate::fault::{CodeEnd, CodeFault, CodeKind};
use crate::instr::Instr;
use crate::limits::{INSTR_LIMIT, PROC_LIMIT, WORK_LIMIT};
use flow_base::{List, Memory};
use std::alloc::Global;

/// The work of a procedure, 0 where there is none of that number.
fn work_at(works: &[u64], proc: u32) -> u64
    ensures { result ≡ slice_index works.now proc }
{
    match works.get(proc as usize) {
        Some(work) => *work,
        None => 0,
    }
}

/// What is left past so many more instructions, 0 where there aren't so many; `lefts` has what is
/// left from each of these on, the next one last.
fn left_past(lefts: &[u64], over: usize) -> u64
    ensures { result ≡ slice_index (reverse lefts.now) over }
{
    if over < lefts.len() {
        lefts[lefts.len() - 1 - over]
    } else {
        0
    }
}

/// The most instructions from one on to a return, with those of the procedures that are called.
#[tactic(auto, using(crate::proofs::Greatest::at_most_greatest), unfolding(crate::specs::Measures::work_from))]
fn work_from(works: &[u64], instr: &Instr, lefts: &[u64]) -> u64
    requires works { spec.greatest works.now ≤ WORK_LIMIT }
    requires short { length lefts.now < INSTR_LIMIT }
    requires lefts { (over : ℕ) →
        slice_index (reverse lefts.now) over ≤ length lefts.now * (WORK_LIMIT + 1) }
    ensures work { result
        ≡ spec.work_from (slice_index works.now) (instr_of instr.now) (reverse lefts.now) }
    ensures bounded { result ≤ (length lefts.now + 1) * (WORK_LIMIT + 1) }
{
    match instr {
        Instr::Unless(over, _) => left_past(lefts, 0).max(left_past(lefts, *over as usize)) + 1,
        Instr::Skip(over) => left_past(lefts, *over as usize) + 1,
        Instr::Call(proc, _) => work_at(works, *proc) + left_past(lefts, 0) + 1,
        Instr::Ret(_) => 1,
        Instr::Assign(_, _)
        | Instr::Emit(_)
        | Instr::Mark(_)
        | Instr::Clear(_)
        | Instr::Keep(_)
        | Instr::Visit(_, _)
        | Instr::Send(_)
        | Instr::SendTo(_, _, _)
        | Instr::Play
        | Instr::Home(_)
        | Instr::Begin
        | Instr::Pass => left_past(lefts, 0) + 1,
    }
}

/// The work of a procedure with these instructions, by the works of the procedures before it.
fn work_of(alloc: Global, works: &[u64], instrs: &[Instr]) -> Result<u64, Memory>
    requires works { spec.greatest works.now ≤ WORK_LIMIT }
    requires short { length instrs.now ≤ INSTR_LIMIT }
    ensures { IfOk result (λ work. work ≡ spec.work_by (slice_index works.now) (instrs_of instrs.now)) }
{
    let mut lefts = Vec::new(alloc);
    for place in (0..instrs.len()).rev() {
        let left = work_from(works, &instrs[place], &lefts);
        lefts.push(left)?;
    }
    Ok(left_past(&lefts, 0))
}

/// The greatest work of a procedure. `TooMuchWork` at the first procedure whose work is over the
/// limit.
pub fn greatest_work(alloc: Global, procs: &[List<Instr>]) -> Result<u64, CodeEnd>
    requires few { length procs.now ≤ PROC_LIMIT }
    requires short { list_any (λ instrs. nat_lt INSTR_LIMIT (length (items_of instrs))) procs.now ≡ false }
    ensures greatest { IfOk result (λ most. most ≡ spec.greatest (spec.works (procs_of procs.now))) }
    ensures none { OnOk result
        (first_over WORK_LIMIT CodeKind.TooMuchWork 0 (spec.works (procs_of procs.now)) ≡ None) }
    ensures over { IfErr result (λ end.
        IsEndOf (first_over WORK_LIMIT CodeKind.TooMuchWork 0 (spec.works (procs_of procs.now))) end) }
{
    let mut works = Vec::new(alloc);
    let mut greatest: u64 = 0;
    for (p, instrs) in procs.iter().enumerate() {
        let Ok(work) = work_of(alloc, &works, instrs.items()) else {
            return Err(CodeEnd::Memory);
        };
        if work > WORK_LIMIT {
            return Err(CodeEnd::Fault(CodeFault {
                kind: CodeKind::TooMuchWork,
                proc: p as u32,
                place: 0,
            }));
        }
        greatest = greatest.max(work);
        let Ok(()) = works.push(work) else {
            return Err(CodeEnd::Memory);
        };
    }
    Ok(greatest)
}
