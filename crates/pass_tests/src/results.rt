//! Code that is folded, before and after.
use crate::setup::{accepted, check_told, list, no_event};
use code_language::{Code, Cond, Instr};
use code_results::fold_results;
use flow_base::List;
use std::process::Abort;

/// A procedure that returns at once with 0, one that marks the root and returns with 1, one that
/// calls both and tests the result, which is 1, and one that begins with any result, calls the
/// first one and tests the result, which is 0.
fn procedures(rt: &(impl AllocGlobal + Abort)) -> List<List<Instr>> {
    let idle = [Instr::Ret(0)];
    let marking = [Instr::Mark(0), Instr::Ret(1)];
    let starting = [
        Instr::Call(0, None),
        Instr::Call(1, None),
        Instr::Unless(1, Cond::Result(1)),
        Instr::Skip(1),
        Instr::Ret(2),
        Instr::Pass,
        Instr::Ret(0),
    ];
    let reacting = [
        Instr::Unless(0, Cond::Result(1)),
        Instr::Call(0, None),
        Instr::Pass,
        Instr::Unless(1, Cond::Result(3)),
        Instr::Ret(2),
        Instr::Ret(0),
    ];
    let procs = [
        list(rt, idle),
        list(rt, marking),
        list(rt, starting),
        list(rt, reacting),
    ];
    list(rt, procs)
}

/// The code of these procedures once it is folded.
fn folded(rt: &(impl AllocGlobal + Abort)) -> Code {
    let code = accepted(rt, no_event(rt), procedures(rt), 2, 3);
    fold_results(rt.alloc(), code).expect(rt, "there is memory")
}

/// Procedures once the code is folded.
const FOLDED: &[(usize, &[u32])] = &[
    (0, &[200]),
    // The idle call is left out, the test holds, and the `Pass` returns with 1.
    (2, &[100, 301, 100, 101, 202, 201, 200]),
    // The first result may be any; after the idle call it is 0, and nothing reads it any more.
    (3, &[801, 100, 100, 101, 202, 200]),
];

#[test]
fn tests_are_decided_and_idle_calls_left_out(rt: HostRuntime) {
    check_told(&rt, &folded(&rt), FOLDED);
}
