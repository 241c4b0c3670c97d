//! What is written for the instructions of a procedure, one after another.
ghost use Rattle.std.specs.Prelude.{◌≡◌, ◌≤◌, ◌<◌, ◌+◌, ◌++◌, ◌||◌, ℕ, length, true, false, IfOk};
ghost use Rattle.flow_base.specs.Lists.{items_of};
ghost use Rattle.code_language.specs.Code.{cond_of, instr_of, instrs_of};
ghost use Rattle.c_subset.specs.Lines.{else_lines, lines_in, lines_of};
ghost use Rattle.c_functions.specs.Statements as plan;
ghost use Rattle.c_functions.specs.Written.{test_of};
ghost use Rattle.c_functions.specs.Plans.{plan_c};
ghost use Rattle.c_functions.specs.Plans as plans;
ghost use Rattle.c_shape.specs.FileShapes.{shape_seen};
ghost use Rattle.c_writer.specs.Appending.{PlanAppends};
ghost use Rattle.c_writer.specs.Fine.{IsFineTest};
ghost use Rattle.c_writer.specs.Parts as spec;
ghost use Rattle.c_writer.specs.Parts.{CanBeWritten, HasLines, IsNext, StaysWithin};
ghost use Rattle.c_writer.specs.Parts.{WritesPlan, part};

use crate::conditions::put_condition;
use crate::instructions::put_straight;
use crate::pieces::put_return;
use crate::places::end_of_fork;
use c_expression_writer::put;
use c_shape::{FileShape, number};
use c_subset::Line;
use code_language::{Cond, Instr};
use flow_base::{List, Memory};
use std::alloc::Global;

/// Where the writing of a procedure goes on.
#[derive(Clone, Copy)]
pub struct Next {
    /// The place of the next instruction that is written.
    pub place: u32,
    /// Whether what was written before plays.
    pub plays: bool,
}

/// Whether an instruction plays.
fn is_play(instr: &Instr) -> bool
    ensures { result ≡ spec.is_play (instr_of instr.now) }
{
    matches!(instr, Instr::Play)
}

/// Whether nothing is written for the instructions from `from` on and before `to`: all that is
/// reached there are skips.
fn is_empty(shape: &FileShape<'_>, instrs: &[Instr], from: u32, to: u32) -> bool
    requires can { CanBeWritten (shape_seen shape.now) (instrs_of instrs.now) }
    requires within { from ≤ to }
    requires there { to ≤ length instrs.now }
    requires stays { StaysWithin (instrs_of instrs.now) from to }
    ensures empty { (react : ℕ) → result ≡ true →
        part (shape_seen shape.now) react (instrs_of instrs.now) from to ≡ plan.End }
    ensures some { (react : ℕ) → result ≡ false → HasLines (shape_seen shape.now)
        (part (shape_seen shape.now) react (instrs_of instrs.now) from to) }
{
    // Only the contract reads the shape.
    let _ = shape;
    let mut place = from;
    while place < to {
        let Instr::Skip(over) = &instrs[place as usize] else {
            return false;
        };
        place = place + 1 + *over;
    }
    true
}

/// Writes the second part of an `if`, after an `else` where there is something of it, and tells
/// whether it plays.
#[cycle(part)]
fn write_else(
    alloc: Global,
    shape: &FileShape<'_>,
    react: u32,
    instrs: &[Instr],
    lines: &mut List<Line>,
    from: u32,
    to: u32,
) -> Result<bool, Memory>
    requires can { CanBeWritten (shape_seen shape.now) (instrs_of instrs.now) }
    requires within { from ≤ to }
    requires there { to ≤ length instrs.now }
    requires stays { StaysWithin (instrs_of instrs.now) from to }
    ensures lines { IfOk result (λ _. lines_in (items_of lines.new) ≡ lines_in (items_of lines.old)
        ++ else_lines (lines_of (plan_c (shape_seen shape.now)
        (part (shape_seen shape.now) react (instrs_of instrs.now) from to)))) }
    ensures plays { IfOk result (λ plays. plays
        ≡ plans.plays (part (shape_seen shape.now) react (instrs_of instrs.now) from to)) }
{
    if is_empty(shape, instrs, from, to) {
        return Ok(false);
    }
    put(lines, Line::Else)?;
    write_part(alloc, shape, react, instrs, lines, from, to)
}

/// Writes an `if` whose first part begins at `rest` and its second one after `over` instructions;
/// both end at `end`. It tells whether a part plays.
#[cycle(part)]
fn write_if(
    alloc: Global,
    shape: &FileShape<'_>,
    react: u32,
    instrs: &[Instr],
    lines: &mut List<Line>,
    cond: &Cond,
    rest: u32,
    over: u32,
    end: u32,
) -> Result<bool, Memory>
    requires can { CanBeWritten (shape_seen shape.now) (instrs_of instrs.now) }
    requires cond { IsFineTest (shape_seen shape.now) (cond_of cond.now) }
    requires within { rest + over ≤ end }
    requires there { end ≤ length instrs.now }
    requires stays { StaysWithin (instrs_of instrs.now) rest end }
    ensures lines { IfOk result (λ _. PlanAppends (shape_seen shape.now) (items_of lines.old)
        (items_of lines.new) (plan.If
        (test_of (shape_seen shape.now).tree (shape_seen shape.now).numbers (cond_of cond.now))
        (part (shape_seen shape.now) react (instrs_of instrs.now) rest end)
        (part (shape_seen shape.now) react (instrs_of instrs.now) (rest + over) end))) }
    ensures plays { IfOk result (λ plays. plays
        ≡ (plans.plays (part (shape_seen shape.now) react (instrs_of instrs.now) rest end)
        || plans.plays (part (shape_seen shape.now) react (instrs_of instrs.now) (rest + over)
        end))) }
{
    let test = put_condition(alloc, shape, lines, cond)?;
    put(lines, Line::If(test))?;
    let first = write_part(alloc, shape, react, instrs, lines, rest, end)?;
    let second = write_else(alloc, shape, react, instrs, lines, rest + over, end)?;
    put(lines, Line::Close)?;
    Ok(first || second)
}

/// Writes the instruction at a place, and with an `Unless` its two parts.
#[cycle(part)]
fn write_next(
    alloc: Global,
    shape: &FileShape<'_>,
    react: u32,
    instrs: &[Instr],
    lines: &mut List<Line>,
    at: u32,
    to: u32,
) -> Result<Next, Memory>
    requires can { CanBeWritten (shape_seen shape.now) (instrs_of instrs.now) }
    requires within { at < to }
    requires there { to ≤ length instrs.now }
    requires stays { StaysWithin (instrs_of instrs.now) at to }
    ensures { IfOk result (IsNext (shape_seen shape.now) react (instrs_of instrs.now) at to
        (items_of lines.old) (items_of lines.new)) }
{
    let rest = at + 1;
    match &instrs[at as usize] {
        Instr::Ret(value) => {
            put_return(lines, number(*value))?;
            Ok(Next {
                place: to,
                plays: false,
            })
        }
        Instr::Skip(over) => Ok(Next {
            place: rest + *over,
            plays: false,
        }),
        Instr::Unless(over, cond) => {
            let end = end_of_fork(instrs, rest, *over, to);
            let plays = write_if(alloc, shape, react, instrs, lines, cond, rest, *over, end)?;
            Ok(Next { place: end, plays })
        }
        instr => {
            put_straight(alloc, shape, react, lines, instr)?;
            Ok(Next {
                place: rest,
                plays: is_play(instr),
            })
        }
    }
}

/// Writes the instructions from `from` on and before `to`, and tells whether they play.
#[cycle(part)]
pub(crate) fn write_part(
    alloc: Global,
    shape: &FileShape<'_>,
    react: u32,
    instrs: &[Instr],
    lines: &mut List<Line>,
    from: u32,
    to: u32,
) -> Result<bool, Memory>
    requires can { CanBeWritten (shape_seen shape.now) (instrs_of instrs.now) }
    requires within { from ≤ to }
    requires there { to ≤ length instrs.now }
    requires stays { StaysWithin (instrs_of instrs.now) from to }
    ensures lines { IfOk result (λ _. WritesPlan (shape_seen shape.now) (items_of lines.old)
        (items_of lines.new)
        (part (shape_seen shape.now) react (instrs_of instrs.now) from to)) }
    ensures plays { IfOk result (λ plays. plays
        ≡ plans.plays (part (shape_seen shape.now) react (instrs_of instrs.now) from to)) }
{
    let mut at = from;
    let mut plays = false;
    while at < to {
        let next = write_next(alloc, shape, react, instrs, lines, at, to)?;
        at = next.place;
        plays = plays || next.plays;
    }
    Ok(plays)
}
