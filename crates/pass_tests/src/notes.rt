//! Code with notes, before and after.
use crate::setup::{accepted, check_told, doing, list, no_event};
use code_language::Instr;
use code_notes::{Noteless, without_notes};
use flow_base::List;
use std::process::Abort;

/// Two procedures that return at once with 0, one that plays, one that calls it with the note 1 and
/// isn't its own base, and two that call this one: the start with the note 0, and the reaction with
/// another one.
fn procedures(rt: &(impl AllocGlobal + Abort), note: u32) -> List<List<Instr>> {
    let playing = [Instr::Home(0), Instr::Play, Instr::Ret(0)];
    let starting = [Instr::Begin, Instr::Call(3, Some(0)), Instr::Ret(0)];
    let reacting = [Instr::Begin, Instr::Call(3, Some(note)), Instr::Ret(0)];
    let procs = [
        list(rt, [Instr::Ret(0)]),
        list(rt, [Instr::Ret(0)]),
        list(rt, playing),
        doing(rt, Instr::Call(2, Some(1))),
        list(rt, starting),
        list(rt, reacting),
    ];
    list(rt, procs)
}

/// The code of these procedures without notes.
fn noteless(rt: &(impl AllocGlobal + Abort), note: u32) -> Option<Noteless> {
    let code = accepted(rt, no_event(rt), procedures(rt, note), 4, 5);
    without_notes(rt.alloc(), &code).expect(rt, "there is memory")
}

/// Procedures of the code without notes.
const MADE: &[(usize, &[u32])] = &[
    (0, &[503, 401, 501, 402, 600, 200]),
    (3, &[700, 300, 200]),
    (4, &[303, 200]),
    (5, &[100, 304, 200]),
];

/// Asserts that the code without notes has these procedures, and one `Play` is played.
fn check_made(rt: &impl Abort, made: &Noteless) {
    assert_eq!(rt; made.played.as_slice(), [2].as_slice());
    check_told(rt, &made.code, MADE);
}

#[test]
fn a_new_procedure_runs_the_notes_in_their_order(rt: HostRuntime) {
    check_made(&rt, &noteless(&rt, 0).expect(&rt, "the notes are known"));
}

/// A procedure that returns at once with 0, two that play, and two that call one of these with the
/// note 0: the start and the reaction.
fn two_players(rt: &(impl AllocGlobal + Abort)) -> List<List<Instr>> {
    let procs = [
        list(rt, [Instr::Ret(0)]),
        list(rt, [Instr::Home(0), Instr::Play, Instr::Ret(0)]),
        list(rt, [Instr::Home(0), Instr::Play, Instr::Ret(0)]),
        list(rt, [Instr::Begin, Instr::Call(1, Some(0)), Instr::Ret(0)]),
        list(rt, [Instr::Begin, Instr::Call(2, Some(0)), Instr::Ret(0)]),
    ];
    list(rt, procs)
}

#[test]
fn each_procedure_that_plays_has_a_new_procedure_of_its_own(rt: HostRuntime) {
    let code = accepted(&rt, no_event(&rt), two_players(&rt), 3, 4);
    let found = without_notes(rt.alloc(), &code).expect(&rt, "there is memory");
    let made = found.expect(&rt, "the notes are known");
    assert_eq!(rt; made.played.as_slice(), [1, 2].as_slice());
    let rows: &[(usize, &[u32])] = &[(3, &[700, 300, 200]), (4, &[700, 301, 200])];
    check_told(&rt, &made.code, rows);
}

#[test]
fn notes_that_differ_by_the_way_are_not_known(rt: HostRuntime) {
    assert!(rt; noteless(&rt, 1).is_none());
}
