//! The ways of a procedure once constant tests are decided and jumps lead past skips.
ghost use Rattle.std.specs.Prelude.{◌≡◌, ◌≤◌, IfOk, map, reverse, slice_index};
ghost use Rattle.actions.specs.Trees.{expr_of};
ghost use Rattle.code_language.specs.Code.{cond_of, instr_of, instrs_of};
ghost use Rattle.code_language.specs.Instrs.{Test, Unless};
ghost use Rattle.code_language.specs.declared.limits.TheConstants.{INSTR_LIMIT};
ghost use Rattle.code_shrink.specs.Slides as spec;
ghost use Rattle.code_shrink.specs.Smaller.{folded, folded_test};
ghost use Rattle.code_shrink.specs.Ways.{way_of};

use crate::constants::truth_of_constant;
use crate::places::Way;
use actions::{Expr, Vals};
use active_config::Marks;
use code_language::{Cond, Instr};
use flow_base::Memory;
use std::alloc::Global;

/// The way after a test of an expression, decided where it is constant.
fn expr_way(over: u32, expr: &Expr, vals: &Vals, marks: &Marks) -> Way
    requires { spec.IsTyped (Unless over (Test (expr_of expr.now))) }
    ensures { result ≡ way_of (folded_test over (Test (expr_of expr.now))) }
{
    match truth_of_constant(expr, vals, marks) {
        Some(true) => Way::Skips(0),
        Some(false) => Way::Skips(over),
        None => Way::Tests(over),
    }
}

/// The way after a test, decided where it is constant.
fn test_way(over: u32, cond: &Cond, vals: &Vals, marks: &Marks) -> Way
    requires { spec.IsTyped (Unless over (cond_of cond.now)) }
    ensures { result ≡ way_of (folded_test over (cond_of cond.now)) }
{
    match cond {
        Cond::Test(expr) => expr_way(over, expr, vals, marks),
        Cond::On(_)
        | Cond::Bare(_)
        | Cond::OnHome
        | Cond::BareHome
        | Cond::Current(_)
        | Cond::Result(_)
        | Cond::Last(_) => Way::Tests(over),
    }
}

/// The way after an instruction, decided where it is a constant test.
fn decided_way(instr: &Instr, vals: &Vals, marks: &Marks) -> Way
    requires { spec.IsTyped (instr_of instr.now) }
    ensures { result ≡ way_of (folded (instr_of instr.now)) }
{
    match instr {
        Instr::Unless(over, cond) => test_way(*over, cond, vals, marks),
        Instr::Skip(over) => Way::Skips(*over),
        Instr::Ret(_) => Way::Returns,
        Instr::Assign(_, _)
        | Instr::Emit(_)
        | Instr::Mark(_)
        | Instr::Clear(_)
        | Instr::Keep(_)
        | Instr::Call(_, _)
        | Instr::Visit(_, _)
        | Instr::Send(_)
        | Instr::SendTo(_, _, _)
        | Instr::Play
        | Instr::Home(_)
        | Instr::Begin
        | Instr::Pass => Way::On,
    }
}

/// How far the skip leads that stands past so many places, 0 where none stands there; `later` has
/// the ways of these places, the next one last.
fn slide_past(later: &[Way], over: usize) -> usize
    ensures { result ≡ slice_index (map spec.slide_of (reverse later.now)) over }
{
    if over >= later.len() {
        return 0;
    }
    match later[later.len() - 1 - over] {
        Way::Skips(skipped) => skipped as usize + 1,
        Way::On | Way::Tests(_) | Way::Returns => 0,
    }
}

/// The way with its jump past the skip that it would meet; `later` has the ways of the places
/// after it, the next one last.
fn led(way: Way, later: &[Way]) -> Way
    requires { spec.over_of (spec.led way (reverse later.now)) ≤ INSTR_LIMIT }
    ensures { result ≡ spec.led way (reverse later.now) }
{
    match way {
        Way::Tests(over) => {
            Way::Tests((over as usize + slide_past(later, over as usize)) as u32)
        }
        Way::Skips(over) => {
            Way::Skips((over as usize + slide_past(later, over as usize)) as u32)
        }
        Way::On => Way::On,
        Way::Returns => Way::Returns,
    }
}

/// The ways of a procedure of well-formed code, with constant tests decided and jumps past skips.
/// Any data and marks serve.
///
/// Its time grows with the number of instructions. `Memory` only where memory was refused.
pub fn ways_of(
    alloc: Global,
    instrs: &[Instr],
    vals: &Vals,
    marks: &Marks,
) -> Result<Vec<Way>, Memory>
    requires { spec.IsProcedure (instrs_of instrs.now) }
    ensures { IfOk result (λ ways. ways.items ≡ spec.straight_ways (instrs_of instrs.now)) }
{
    let mut ways = Vec::new(alloc);
    for place in (0..instrs.len()).rev() {
        let decided = decided_way(&instrs[place], vals, marks);
        let way = led(decided, &ways);
        ways.push(way)?;
    }
    ways.reverse();
    Ok(ways)
}
