//! The search for the procedures that can fail: those with an instruction that can fail by itself,
//! and those that call one that can. What is proved does not rest on it.
ghost use Rattle.std.specs.Prelude.{◌≡◌};

use crate::checking::none_can_fail;
use c_shape::Tests;
use code_language::{Instr, RawCode};

/// How often the procedures are gone over at most, up and down.
const ROUNDS: usize = 32;

/// Whether a procedure is marked; where there is none of that number it is.
fn is_marked(marks: &[bool], proc: usize) -> bool {
    match marks.get(proc) {
        Some(mark) => *mark,
        None => true,
    }
}

/// Marks a procedure, if it is there.
fn mark(marks: &mut [bool], proc: usize) {
    if let Some(known) = marks.get_mut(proc) {
        *known = true;
    }
}

/// Marks the procedures with an instruction that can fail by those that are marked before it.
pub(crate) fn mark_failing(raw: &RawCode, tests: &mut Tests)
    ensures steps { tests.new.steps ≡ tests.old.steps }
    ensures depth { tests.new.depth ≡ tests.old.depth }
{
    for (proc, instrs) in raw.procs.items().iter().enumerate() {
        if !none_can_fail(tests, raw, instrs.items()) {
            mark(&mut tests.after, proc);
        }
    }
}

/// Whether an instruction calls a procedure that is marked.
fn calls_marked(marks: &[bool], react: u32, instr: &Instr) -> bool {
    match instr {
        Instr::Call(proc, _) | Instr::Visit(proc, _) | Instr::SendTo(_, _, proc) => {
            is_marked(marks, *proc as usize)
        }
        Instr::Send(_) => is_marked(marks, react as usize),
        Instr::Assign(_, _) | Instr::Emit(_) | Instr::Mark(_) | Instr::Clear(_) => false,
        Instr::Keep(_) | Instr::Unless(_, _) | Instr::Skip(_) | Instr::Play => false,
        Instr::Home(_) | Instr::Begin | Instr::Pass | Instr::Ret(_) => false,
    }
}

/// Whether one of the instructions calls a procedure that is marked.
fn one_calls_marked(marks: &[bool], react: u32, instrs: &[Instr]) -> bool {
    for instr in instrs {
        if calls_marked(marks, react, instr) {
            return true;
        }
    }
    false
}

/// Marks a procedure that calls one that is marked. Whether there is news.
fn spread_to(raw: &RawCode, marks: &mut [bool], proc: usize) -> bool {
    if is_marked(marks, proc) {
        return false;
    }
    let Some(instrs) = raw.procs.items().get(proc) else {
        return false;
    };
    let news = one_calls_marked(marks, raw.react, instrs.items());
    if news {
        mark(marks, proc);
    }
    news
}

/// Goes over all procedures once, from the first one to the last. Whether there is news.
fn spread_up(raw: &RawCode, marks: &mut [bool]) -> bool {
    let mut news = false;
    for proc in 0..marks.len() {
        if spread_to(raw, marks, proc) {
            news = true;
        }
    }
    news
}

/// Goes over all procedures once, from the last one to the first. Whether there is news.
fn spread_down(raw: &RawCode, marks: &mut [bool]) -> bool {
    let mut news = false;
    for proc in (0..marks.len()).rev() {
        if spread_to(raw, marks, proc) {
            news = true;
        }
    }
    news
}

/// Goes over all procedures until there is no news, or often enough: down, since most visits go to
/// higher procedures, and up, since calls go to lower ones.
pub(crate) fn spread(raw: &RawCode, marks: &mut [bool]) {
    for _ in 0..ROUNDS {
        if !spread_down(raw, marks) || !spread_up(raw, marks) {
            return;
        }
    }
}
