//! The procedures that look at the home with which they begin.
use crate::searching::lists::{append_to, empty_lists, list_at, number_of};
use code_language::{Cond, Instr};
use flow_base::{List, Memory};
use std::alloc::Global;

/// The procedures that are found to look at the home with which they begin.
#[derive(Drop)]
struct FoundProcedures {
    /// For each procedure whether it is found.
    flags: Vec<bool>,
    /// The found ones whose callers are still to be found.
    todo: Vec<u32>,
}

impl FoundProcedures {
    /// Finds a procedure, once.
    fn find(&mut self, proc: u32) -> Result<(), Memory> {
        let Some(flag) = self.flags.get_mut(proc as usize) else {
            return Ok(());
        };
        if *flag {
            return Ok(());
        }
        *flag = true;
        self.todo.push(proc)?;
        Ok(())
    }

    /// Finds procedures.
    fn find_all(&mut self, procs: &[u32]) -> Result<(), Memory> {
        for proc in procs {
            self.find(*proc)?;
        }
        Ok(())
    }
}

/// Marks a place, if it is there.
fn mark(flags: &mut [bool], place: usize) {
    if let Some(flag) = flags.get_mut(place) {
        *flag = true;
    }
}

/// Marks the places that a run may go to after this instruction while the home stays.
fn mark_after(flags: &mut [bool], place: usize, instr: &Instr) {
    let next = place.saturating_add(1);
    match instr {
        Instr::Unless(over, _) => {
            mark(flags, next);
            mark(flags, next.saturating_add(*over as usize));
        }
        Instr::Skip(over) => mark(flags, next.saturating_add(*over as usize)),
        Instr::Home(_) | Instr::Ret(_) => {}
        Instr::Assign(_, _)
        | Instr::Emit(_)
        | Instr::Mark(_)
        | Instr::Clear(_)
        | Instr::Keep(_)
        | Instr::Call(_, _)
        | Instr::Visit(_, _)
        | Instr::Send(_)
        | Instr::SendTo(_, _, _)
        | Instr::Play
        | Instr::Begin
        | Instr::Pass => mark(flags, next),
    }
}

/// Whether a test looks at the home.
fn tests_home(cond: &Cond) -> bool {
    match cond {
        Cond::OnHome | Cond::BareHome => true,
        Cond::On(_)
        | Cond::Bare(_)
        | Cond::Current(_)
        | Cond::Result(_)
        | Cond::Test(_)
        | Cond::Last(_) => false,
    }
}

/// Whether an instruction itself looks at the home.
fn looks_at_home(instr: &Instr) -> bool {
    match instr {
        Instr::Unless(_, cond) => tests_home(cond),
        Instr::Play => true,
        Instr::Assign(_, _)
        | Instr::Emit(_)
        | Instr::Mark(_)
        | Instr::Clear(_)
        | Instr::Keep(_)
        | Instr::Skip(_)
        | Instr::Call(_, _)
        | Instr::Visit(_, _)
        | Instr::Send(_)
        | Instr::SendTo(_, _, _)
        | Instr::Home(_)
        | Instr::Begin
        | Instr::Pass
        | Instr::Ret(_) => false,
    }
}

/// The procedure that an instruction calls or visits with the home of its caller.
pub(crate) fn callee_of(instr: &Instr) -> Option<u32> {
    match instr {
        Instr::Call(proc, _) | Instr::Visit(proc, _) => Some(*proc),
        Instr::Assign(_, _)
        | Instr::Emit(_)
        | Instr::Mark(_)
        | Instr::Clear(_)
        | Instr::Keep(_)
        | Instr::Unless(_, _)
        | Instr::Skip(_)
        | Instr::Send(_)
        | Instr::SendTo(_, _, _)
        | Instr::Play
        | Instr::Home(_)
        | Instr::Begin
        | Instr::Pass
        | Instr::Ret(_) => None,
    }
}

/// The places of a procedure that are reached with the home with which it begins, each marked.
fn first_home_places(alloc: Global, instrs: &[Instr]) -> Result<Vec<bool>, Memory> {
    let mut flags = vec![in alloc; false; instrs.len()]?;
    mark(&mut flags, 0);
    for (place, instr) in instrs.iter().enumerate() {
        if flags.get(place).copied() == Some(true) {
            mark_after(&mut flags, place, instr);
        }
    }
    Ok(flags)
}

/// Finds a procedure if an instruction of it that is reached with the home with which it begins
/// looks at it, and marks it as a caller of what such an instruction calls with that home.
fn look_at(
    proc: u32,
    instr: &Instr,
    found: &mut FoundProcedures,
    callers: &mut [Vec<u32>],
) -> Result<(), Memory> {
    if looks_at_home(instr) {
        found.find(proc)?;
    }
    match callee_of(instr) {
        Some(callee) => append_to(callers, callee, proc),
        None => Ok(()),
    }
}

/// The same for all instructions of the procedure; the flags mark those that are reached so.
fn look_at_all(
    proc: u32,
    instrs: &[Instr],
    flags: &[bool],
    found: &mut FoundProcedures,
    callers: &mut [Vec<u32>],
) -> Result<(), Memory> {
    for (place, instr) in instrs.iter().enumerate() {
        if flags.get(place).copied() == Some(true) {
            look_at(proc, instr, found, callers)?;
        }
    }
    Ok(())
}

/// Finds a procedure if an instruction of it looks at the home with which it begins, and marks it
/// as a caller of those that it calls with that home.
fn look_through(
    alloc: Global,
    proc: u32,
    instrs: &[Instr],
    found: &mut FoundProcedures,
    callers: &mut [Vec<u32>],
) -> Result<(), Memory> {
    let flags = first_home_places(alloc, instrs)?;
    look_at_all(proc, instrs, &flags, found, callers)
}

/// Finds the procedures that look at the home with which they begin, and those that call or visit
/// them with that home.
fn find_lookers(
    alloc: Global,
    procs: &[List<Instr>],
    found: &mut FoundProcedures,
    callers: &mut [Vec<u32>],
) -> Result<(), Memory> {
    for (proc, instrs) in procs.iter().enumerate() {
        look_through(alloc, number_of(proc), instrs.items(), found, callers)?;
    }
    // A procedure is found at most once.
    for _ in 0..procs.len() {
        let Some(proc) = found.todo.pop() else {
            break;
        };
        found.find_all(list_at(callers, proc))?;
    }
    Ok(())
}

/// For each procedure whether it, or what it calls or visits, looks at the home with which it
/// begins before a home is set.
pub(crate) fn home_lookers(alloc: Global, procs: &[List<Instr>]) -> Result<Vec<bool>, Memory> {
    let flags = vec![in alloc; false; procs.len()]?;
    let mut found = FoundProcedures {
        flags,
        todo: Vec::new(alloc),
    };
    let mut callers = empty_lists(alloc, procs.len())?;
    find_lookers(alloc, procs, &mut found, &mut callers)?;
    Ok(found.flags)
}
