//! Which procedures may nest sends without end.
use code_language::{Instr, RawCode};
use flow_base::{List, Memory};
use std::alloc::Global;

/// How many sends may follow one another where they don't come back.
///
/// Source: this project's choice.
pub const SEND_LIMIT: u32 = 64;

/// How often all procedures are gone over at most for each of these sends, up and down.
///
/// Source: this project's choice.
pub const SPREAD_LIMIT: u32 = 32;

/// Procedures that may come to a send, at once or by calls and visits, so that the procedure to
/// which is sent is one of them.
#[derive(Drop)]
pub(crate) struct Nesting {
    /// Whether the procedure is one of them, by its number.
    flags: Vec<bool>,
}

/// Whether the procedure has a flag that is set.
fn is_set(flags: &[bool], proc: usize) -> bool {
    flags.get(proc).copied() == Some(true)
}

/// Sets the flag of a procedure, if it is there.
fn set(flags: &mut [bool], proc: usize) {
    if let Some(flag) = flags.get_mut(proc) {
        *flag = true;
    }
}

/// Whether the instruction sends to a procedure that nests, or calls one that is found.
fn leads(nested: &[bool], found: &[bool], react: u32, instr: &Instr) -> bool {
    match instr {
        Instr::SendTo(_, _, proc) => is_set(nested, *proc as usize),
        Instr::Send(_) => is_set(nested, react as usize),
        Instr::Call(proc, _) | Instr::Visit(proc, _) => is_set(found, *proc as usize),
        Instr::Assign(_, _)
        | Instr::Emit(_)
        | Instr::Mark(_)
        | Instr::Clear(_)
        | Instr::Keep(_)
        | Instr::Unless(_, _)
        | Instr::Skip(_)
        | Instr::Play
        | Instr::Home(_)
        | Instr::Begin
        | Instr::Pass
        | Instr::Ret(_) => false,
    }
}

/// Whether one of the instructions does so.
fn one_leads(nested: &[bool], found: &[bool], react: u32, instrs: &[Instr]) -> bool {
    for instr in instrs {
        if leads(nested, found, react, instr) {
            return true;
        }
    }
    false
}

/// Finds the procedure, if it is to be found and isn't. Whether it is found now.
fn find(code: &RawCode, nested: &[bool], found: &mut [bool], proc: usize) -> bool {
    if is_set(found, proc) {
        return false;
    }
    let Some(instrs) = code.procs.items().get(proc) else {
        return false;
    };
    let is_new = one_leads(nested, found, code.react, instrs.items());
    if is_new {
        set(found, proc);
    }
    is_new
}

/// Goes over all procedures once, from the last one to the first. Whether one more is found.
fn find_down(code: &RawCode, nested: &[bool], found: &mut [bool]) -> bool {
    let mut is_new = false;
    for proc in (0..found.len()).rev() {
        if find(code, nested, found, proc) {
            is_new = true;
        }
    }
    is_new
}

/// Goes over all procedures once, from the first one to the last. Whether one more is found.
fn find_up(code: &RawCode, nested: &[bool], found: &mut [bool]) -> bool {
    let mut is_new = false;
    for proc in 0..found.len() {
        if find(code, nested, found, proc) {
            is_new = true;
        }
    }
    is_new
}

/// Finds all procedures that come to a send to one that nests: down, since most visits go to higher
/// procedures, and up, since calls go to lower ones. Whether none is left.
fn find_all(code: &RawCode, nested: &[bool], found: &mut [bool]) -> bool {
    for _round in 0..SPREAD_LIMIT {
        if !find_down(code, nested, found) || !find_up(code, nested, found) {
            return true;
        }
    }
    false
}

/// How many flags are set.
fn count(flags: &[bool]) -> usize {
    let mut set: usize = 0;
    for flag in flags {
        if *flag {
            set = set.saturating_add(1);
        }
    }
    set
}

/// As many flags as there are procedures.
fn flags_of(alloc: Global, code: &RawCode, flag: bool) -> Result<Vec<bool>, Memory> {
    Ok(vec![in alloc; flag; code.procs.items().len()]?)
}

impl Nesting {
    /// Those of the code: the procedures from which a send can follow a send and so on, one more
    /// send each time, until there are as many procedures as before. None where they weren't found
    /// within the limits.
    pub(crate) fn of(alloc: Global, code: &RawCode) -> Result<Option<Nesting>, Memory> {
        let mut flags = flags_of(alloc, code, true)?;
        for _send in 0..SEND_LIMIT {
            let mut found = flags_of(alloc, code, false)?;
            if !find_all(code, &flags, &mut found) {
                return Ok(None);
            }
            if count(&found) == count(&flags) {
                return Ok(Some(Nesting { flags: found }));
            }
            flags = found;
        }
        Ok(None)
    }

    /// Whether the procedure is one of them.
    pub(crate) fn has(&self, proc: u32) -> bool {
        is_set(&self.flags, proc as usize)
    }

    /// Whether there is one of them.
    pub(crate) fn has_any(&self) -> bool {
        count(&self.flags) > 0
    }

    /// Whether the reaction is one of them, and one of them sends to it without naming it.
    pub(crate) fn sends_to_reaction(&self, code: &RawCode) -> bool {
        if !self.has(code.react) {
            return false;
        }
        for (proc, instrs) in code.procs.items().iter().enumerate() {
            if is_set(&self.flags, proc) && has_send(instrs.items()) {
                return true;
            }
        }
        false
    }
}

/// Whether one of the instructions sends to the reaction without naming it.
fn has_send(instrs: &[Instr]) -> bool {
    for instr in instrs {
        if let Instr::Send(_) = instr {
            return true;
        }
    }
    false
}

/// Whether the instruction has a note.
fn is_noting(instr: &Instr) -> bool {
    match instr {
        Instr::Call(_, note) | Instr::Visit(_, note) => note.is_some(),
        Instr::Assign(_, _)
        | Instr::Emit(_)
        | Instr::Mark(_)
        | Instr::Clear(_)
        | Instr::Keep(_)
        | Instr::Unless(_, _)
        | Instr::Skip(_)
        | Instr::Send(_)
        | Instr::SendTo(_, _, _)
        | Instr::Play
        | Instr::Home(_)
        | Instr::Begin
        | Instr::Pass
        | Instr::Ret(_) => false,
    }
}

/// Whether an instruction of one of the procedures has a note.
pub(crate) fn have_notes(procs: &[List<Instr>]) -> bool {
    for instrs in procs {
        for instr in instrs.items() {
            if is_noting(instr) {
                return true;
            }
        }
    }
    false
}
