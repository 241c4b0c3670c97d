//! Code that the tests share.
use actions::{EventDecl, EventKind};
use active_config::Comp;
use code_language::{Code, Cond, Instr, RawCode, RawState, accept};
use flow_base::{List, Text};
use std::process::Abort;

/// The list of these items.
pub fn list<T: Drop, const N: usize>(rt: &(impl AllocGlobal + Abort), items: [T; N]) -> List<T> {
    List::of(Vec::from_array(rt.alloc(), items).expect(rt, "memory"))
}

/// A procedure of this instruction and a return.
pub fn doing(rt: &(impl AllocGlobal + Abort), instr: Instr) -> List<Instr> {
    list(rt, [instr, Instr::Ret(0)])
}

/// A name.
fn named(rt: &(impl AllocGlobal + Abort), name: &str) -> Text {
    Text::of(String::from_str(rt.alloc(), name).expect(rt, "memory"))
}

/// No event.
pub fn no_event(rt: &(impl AllocGlobal + Abort)) -> List<EventDecl> {
    List::of(Vec::new(rt.alloc()))
}

/// One local event.
pub fn one_event(rt: &(impl AllocGlobal + Abort)) -> List<EventDecl> {
    let event = EventDecl {
        name: named(rt, "E"),
        kind: EventKind::Local,
    };
    list(rt, [event])
}

/// The root alone.
fn root(rt: &(impl AllocGlobal + Abort)) -> List<RawState> {
    let root = RawState {
        parent: None,
        comp: Comp::Leaf,
        name: named(rt, "Root"),
    };
    list(rt, [root])
}

/// The code of these events and procedures, with the root alone as its tree, once it is accepted.
pub fn accepted(
    rt: &(impl AllocGlobal + Abort),
    events: List<EventDecl>,
    procs: List<List<Instr>>,
    start: u32,
    react: u32,
) -> Code {
    let raw = RawCode {
        states: root(rt),
        vars: List::of(Vec::new(rt.alloc())),
        events,
        start,
        react,
        procs,
    };
    accept(rt.alloc(), raw).expect(rt, "the code is accepted")
}

/// The instructions of a procedure, if there is one of the number.
fn instrs_of(code: &Code, proc: usize) -> Option<&[Instr]> {
    Some(code.raw().procs.items().get(proc)?.items())
}

/// The procedure to which the first instruction of a procedure sends, if it does.
fn target_of(code: &Code, proc: usize) -> Option<u32> {
    match instrs_of(code, proc)?.first()? {
        Instr::SendTo(_, _, target) => Some(*target),
        _ => None,
    }
}

/// Asserts to which procedure the first instruction of each of these procedures sends.
pub fn check_targets(rt: &impl Abort, code: &Code, rows: &[(usize, u32)]) {
    for (proc, target) in rows {
        assert!(rt; target_of(code, *proc) == Some(*target), "procedure {proc}");
    }
}

/// A number that tells instructions without a note apart.
fn told(instr: &Instr) -> u32 {
    match instr {
        Instr::Skip(over) => 100 + (*over).min(99),
        Instr::Ret(value) => 200 + (*value).min(99),
        Instr::Call(proc, None) => 300 + (*proc).min(99),
        Instr::Visit(proc, None) => 400 + (*proc).min(99),
        Instr::Unless(over, Cond::BareHome) => 500 + (*over).min(99),
        Instr::Pass => 600,
        Instr::Home(state) => 700 + (*state).min(99),
        Instr::Unless(_, Cond::Result(value)) => 800 + (*value).min(99),
        _ => 0,
    }
}

/// Whether the instructions of a procedure are told so.
fn is_told(code: &Code, proc: usize, numbers: &[u32]) -> bool {
    let Some(instrs) = instrs_of(code, proc) else {
        return false;
    };
    if instrs.len() != numbers.len() {
        return false;
    }
    for (place, instr) in instrs.iter().enumerate() {
        if numbers.get(place).copied() != Some(told(instr)) {
            return false;
        }
    }
    true
}

/// Asserts that the instructions of each of these procedures are told so.
pub fn check_told(rt: &impl Abort, code: &Code, rows: &[(usize, &[u32])]) {
    for (proc, numbers) in rows {
        assert!(rt; is_told(code, *proc, numbers), "procedure {proc}");
    }
}
