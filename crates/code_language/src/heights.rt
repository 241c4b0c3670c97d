//! The heights of procedures.
ghost use Rattle.std.specs.Prelude.{◌≡◌, ◌≤◌, None, IfOk, IfErr, OnOk, length, slice_index};
ghost use Rattle.code_language.specs.Acceptance.{IsEndOf, procs_of};
ghost use Rattle.code_language.specs.Code.{instr_of, instrs_of};
ghost use Rattle.code_language.specs.Measures as spec;
ghost use Rattle.code_language.specs.WellFormed.{first_over};

use crate::fault::{CodeEnd, CodeFault, CodeKind};
use crate::instr::Instr;
use crate::limits::{HEIGHT_LIMIT, PROC_LIMIT};
use flow_base::List;
use std::alloc::Global;

/// The height of a procedure, 0 where there is none of that number.
fn height_at(heights: &[u32], proc: u32) -> u32
    ensures { result ≡ slice_index heights.now proc }
{
    match heights.get(proc as usize) {
        Some(height) => *height,
        None => 0,
    }
}

/// How high the instruction stacks calls above its own procedure.
#[tactic(auto, using(crate::proofs::Greatest::at_most_greatest), unfolding(crate::specs::Measures::rise))]
fn rise(heights: &[u32], instr: &Instr) -> u32
    requires { spec.greatest heights.now ≤ HEIGHT_LIMIT }
    ensures { result ≡ spec.rise (slice_index heights.now) (instr_of instr.now) }
{
    match instr {
        Instr::Call(proc, _) => height_at(heights, *proc) + 1,
        Instr::Assign(_, _)
        | Instr::Emit(_)
        | Instr::Mark(_)
        | Instr::Clear(_)
        | Instr::Keep(_)
        | Instr::Unless(_, _)
        | Instr::Skip(_)
        | Instr::Visit(_, _)
        | Instr::Send(_)
        | Instr::SendTo(_, _, _)
        | Instr::Play
        | Instr::Home(_)
        | Instr::Begin
        | Instr::Pass
        | Instr::Ret(_) => 0,
    }
}

/// The height of a procedure with these instructions, by the heights of the procedures before it.
fn height_of(heights: &[u32], instrs: &[Instr]) -> u32
    requires { spec.greatest heights.now ≤ HEIGHT_LIMIT }
    ensures { result ≡ spec.height_by (slice_index heights.now) (instrs_of instrs.now) }
{
    let mut height: u32 = 0;
    for instr in instrs {
        height = height.max(rise(heights, instr));
    }
    height
}

/// The greatest height of a procedure. `TooHigh` at the first procedure whose height is over the
/// limit.
pub fn greatest_height(alloc: Global, procs: &[List<Instr>]) -> Result<u32, CodeEnd>
    requires { length procs.now ≤ PROC_LIMIT }
    ensures greatest { IfOk result (λ most. most ≡ spec.greatest (spec.heights (procs_of procs.now))) }
    ensures none { OnOk result
        (first_over HEIGHT_LIMIT CodeKind.TooHigh 0 (spec.heights (procs_of procs.now)) ≡ None) }
    ensures over { IfErr result (λ end.
        IsEndOf (first_over HEIGHT_LIMIT CodeKind.TooHigh 0 (spec.heights (procs_of procs.now))) end) }
{
    let mut heights = Vec::new(alloc);
    let mut greatest: u32 = 0;
    for (p, instrs) in procs.iter().enumerate() {
        let height = height_of(&heights, instrs.items());
        if height > HEIGHT_LIMIT {
            return Err(CodeEnd::Fault(CodeFault {
                kind: CodeKind::TooHigh,
                proc: p as u32,
                place: 0,
            }));
        }
        greatest = greatest.max(height);
        let Ok(()) = heights.push(height) else {
            return Err(CodeEnd::Memory);
        };
    }
    Ok(greatest)
}
