//! The events that each procedure tests.
use crate::searching::homes::callee_of;
use crate::searching::lists::{append_to, empty_lists, list_at, number_of};
use code_language::{Cond, Instr};
use flow_base::{List, Memory};
use std::alloc::Global;

/// The greatest sum of the numbers of events that the procedures test.
const TESTS_LIMIT: usize = 1_000_000;

/// The number of the set of the events that a procedure tests; the set 0 is empty.
pub(crate) fn set_number(proc: u32) -> u32 {
    proc.saturating_add(1)
}

/// Who uses what.
#[derive(Drop)]
struct Users {
    /// For each procedure those that call or visit it.
    callers: Vec<Vec<u32>>,
    /// For each event the procedures with a test of it.
    testers: Vec<Vec<u32>>,
}

/// The event that an instruction tests, if it tests one.
fn event_tested(instr: &Instr) -> Option<u32> {
    match instr {
        Instr::Unless(_, Cond::Current(event)) => Some(*event),
        Instr::Unless(_, Cond::On(_))
        | Instr::Unless(_, Cond::Bare(_))
        | Instr::Unless(_, Cond::OnHome)
        | Instr::Unless(_, Cond::BareHome)
        | Instr::Unless(_, Cond::Result(_))
        | Instr::Unless(_, Cond::Test(_))
        | Instr::Unless(_, Cond::Last(_))
        | Instr::Assign(_, _)
        | Instr::Emit(_)
        | Instr::Mark(_)
        | Instr::Clear(_)
        | Instr::Keep(_)
        | Instr::Skip(_)
        | Instr::Call(_, _)
        | Instr::Visit(_, _)
        | Instr::Send(_)
        | Instr::SendTo(_, _, _)
        | Instr::Play
        | Instr::Home(_)
        | Instr::Begin
        | Instr::Pass
        | Instr::Ret(_) => None,
    }
}

impl Users {
    /// Marks a procedure as a user of what its instructions call, visit and test.
    fn note(&mut self, proc: u32, instrs: &[Instr]) -> Result<(), Memory> {
        for instr in instrs {
            if let Some(callee) = callee_of(instr) {
                append_to(&mut self.callers, callee, proc)?;
            }
            if let Some(event) = event_tested(instr) {
                append_to(&mut self.testers, event, proc)?;
            }
        }
        Ok(())
    }
}

/// The users of all procedures and events.
fn users_of(alloc: Global, procs: &[List<Instr>], events: usize) -> Result<Users, Memory> {
    let mut users = Users {
        callers: empty_lists(alloc, procs.len())?,
        testers: empty_lists(alloc, events)?,
    };
    for (proc, instrs) in procs.iter().enumerate() {
        users.note(number_of(proc), instrs.items())?;
    }
    Ok(users)
}

/// The tests that are found so far, event by event.
#[derive(Drop)]
struct Tests {
    /// The sets of events, as `set_number` numbers them.
    sets: Vec<Vec<u32>>,
    /// The procedures found to test the event at hand whose callers are still to be found.
    todo: Vec<u32>,
    /// How many more may be found.
    room: usize,
}

impl Tests {
    /// Finds a procedure to test the event, once for each event.
    fn find(&mut self, proc: u32, event: u32) -> Result<(), Memory> {
        let Some(events) = self.sets.get_mut(set_number(proc) as usize) else {
            return Ok(());
        };
        if events.last().copied() == Some(event) {
            return Ok(());
        }
        events.push(event)?;
        self.room = self.room.saturating_sub(1);
        self.todo.push(proc)?;
        Ok(())
    }

    /// Finds procedures to test the event.
    fn find_all(&mut self, procs: &[u32], event: u32) -> Result<(), Memory> {
        for proc in procs {
            self.find(*proc, event)?;
        }
        Ok(())
    }

    /// Finds all procedures that test the event.
    fn find_event(&mut self, users: &Users, event: u32) -> Result<(), Memory> {
        self.find_all(list_at(&users.testers, event), event)?;
        // A procedure is found at most once.
        for _ in 0..users.callers.len() {
            let Some(proc) = self.todo.pop() else {
                break;
            };
            self.find_all(list_at(&users.callers, proc), event)?;
        }
        Ok(())
    }
}

/// Sets of events: first the empty one, and then for each procedure those that it, or what it calls
/// or visits, tests, in ascending order. None where that are too many.
pub(crate) fn tested_events(
    alloc: Global,
    procs: &[List<Instr>],
    events: usize,
) -> Result<Option<Vec<Vec<u32>>>, Memory> {
    let users = users_of(alloc, procs, events)?;
    let mut tests = Tests {
        sets: empty_lists(alloc, procs.len().saturating_add(1))?,
        todo: Vec::new(alloc),
        room: TESTS_LIMIT,
    };
    for event in 0..number_of(events) {
        if tests.room == 0 {
            return Ok(None);
        }
        tests.find_event(&users, event)?;
    }
    Ok(Some(tests.sets))
}
