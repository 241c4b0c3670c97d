//! What instructions bring of what is counted, by the numbers at the places.
ghost use Rattle.std.specs.Prelude.{◌≡◌, ◌≤◌};
ghost use Rattle.code_language.specs.Code.{instr_of};
ghost use Rattle.code_counts.specs.Certificate as spec;
ghost use Rattle.code_counts.specs.Rows.{mark_of, numbers_of, row_of};

use crate::numbers::{Counted, Mark};
use code_language::Instr;

/// The greatest part that is joined with another one.
pub(crate) const PART_LIMIT: u64 = 10_000_000_000;

/// The row of a procedure; one that isn't there is empty.
fn row_of(rows: &[Vec<Mark>], proc: usize) -> &[Mark]
    ensures { result.now ≡ row_of rows.now proc }
{
    match rows.get(proc) {
        Some(row) => row,
        None => &[],
    }
}

/// The numbers at a place, 0 where there are none.
pub(crate) fn mark_of(rows: &[Vec<Mark>], proc: usize, place: usize) -> Mark
    ensures { result ≡ mark_of rows.now proc place }
{
    match row_of(rows, proc).get(place) {
        Some(mark) => *mark,
        None => Mark { left: 0, owed: 0 },
    }
}

/// What two parts bring, one after the other.
pub(crate) fn joined(counted: Counted, first: u64, second: u64) -> u64
    requires first { first ≤ PART_LIMIT }
    requires second { second ≤ PART_LIMIT }
    ensures { result ≡ spec.joined counted first second }
{
    match counted {
        Counted::Steps | Counted::Outputs => first + second,
        Counted::Depth | Counted::Notes => first.max(second),
    }
}

/// What a paid step counts.
fn of_step(counted: Counted) -> u64
    ensures count { result ≡ spec.of_step counted }
    ensures few { result ≤ 1 }
{
    match counted {
        Counted::Steps => 1,
        Counted::Outputs | Counted::Depth | Counted::Notes => 0,
    }
}

/// What an output counts.
fn of_output(counted: Counted) -> u64
    ensures count { result ≡ spec.of_output counted }
    ensures few { result ≤ 1 }
{
    match counted {
        Counted::Outputs => 1,
        Counted::Steps | Counted::Depth | Counted::Notes => 0,
    }
}

/// What a send counts while it lasts.
fn of_send(counted: Counted) -> u64
    ensures count { result ≡ spec.of_send counted }
    ensures few { result ≤ 1 }
{
    match counted {
        Counted::Depth => 1,
        Counted::Steps | Counted::Outputs | Counted::Notes => 0,
    }
}

/// What a pending note counts.
fn of_pending(counted: Counted) -> u64
    ensures count { result ≡ spec.of_pending counted }
    ensures few { result ≤ 1 }
{
    match counted {
        Counted::Notes => 1,
        Counted::Steps | Counted::Outputs | Counted::Depth => 0,
    }
}

/// What the note of a call counts while it is pending, if there is one.
fn of_note(counted: Counted, note: Option<u32>) -> u64
    ensures count { result ≡ spec.of_note counted note }
    ensures few { result ≤ 1 }
{
    match note {
        Some(_) => of_pending(counted),
        None => 0,
    }
}

/// What a whole procedure brings.
fn of_proc(rows: &[Vec<Mark>], proc: u32) -> u64
    ensures count { result ≡ (numbers_of rows.now).left proc 0 }
    ensures few { result ≤ 4294967295 }
{
    mark_of(rows, proc as usize, 0).left as u64
}

/// What it brings to run a note, if there is one.
pub(crate) fn of_play(counted: Counted, rows: &[Vec<Mark>], note: Option<u32>) -> u64
    ensures count { result ≡ spec.of_play counted (numbers_of rows.now) note }
    ensures few { result ≤ PART_LIMIT }
{
    match note {
        Some(proc) => of_step(counted) + of_proc(rows, proc),
        None => 0,
    }
}

/// What an instruction brings besides what comes after it in its procedure, where the notes that
/// may be run at its place bring so much.
pub(crate) fn brings(
    counted: Counted,
    rows: &[Vec<Mark>],
    react: u32,
    owed: u32,
    instr: &Instr,
) -> u64
    ensures count { result
        ≡ spec.brings counted (numbers_of rows.now) react owed (instr_of instr.now) }
    ensures few { result ≤ PART_LIMIT }
{
    match instr {
        Instr::Emit(_) => of_step(counted) + of_output(counted),
        Instr::Call(proc, note) => of_note(counted, *note) + of_proc(rows, *proc),
        Instr::Visit(proc, note) => {
            of_step(counted) + of_note(counted, *note) + of_proc(rows, *proc)
        }
        Instr::Send(_) => of_step(counted) + of_send(counted) + of_proc(rows, react),
        Instr::SendTo(_, _, proc) => of_step(counted) + of_send(counted) + of_proc(rows, *proc),
        Instr::Play => owed as u64,
        Instr::Assign(_, _)
        | Instr::Mark(_)
        | Instr::Clear(_)
        | Instr::Keep(_)
        | Instr::Unless(_, _)
        | Instr::Skip(_)
        | Instr::Home(_)
        | Instr::Begin
        | Instr::Pass
        | Instr::Ret(_) => 0,
    }
}
