//! A code of which some procedures can fail and one can't.
use crate::setup::{accepted, doing, list, no_event};
use c_shape::Tests;
use c_tests::tests_of;
use code_language::Instr;
use flow_base::List;
use std::process::Abort;

/// How many procedures there are up to that which plays.
const CHAIN: u32 = 1000;

/// A procedure that can't fail, a chain of visits up to one that plays, and a chain of visits down
/// to it.
fn procedures(rt: &(impl AllocGlobal + Abort)) -> List<List<Instr>> {
    let mut procs = list(rt, [doing(rt, Instr::Skip(0))]);
    for next in 2..CHAIN {
        let visiting = doing(rt, Instr::Visit(next, None));
        procs.push(visiting).expect(rt, "memory");
    }
    procs.push(doing(rt, Instr::Play)).expect(rt, "memory");
    for last in CHAIN - 1..2 * CHAIN {
        let visiting = doing(rt, Instr::Visit(last, None));
        procs.push(visiting).expect(rt, "memory");
    }
    procs
}

/// Asserts that the results of all procedures but the first one are tested.
fn check_tests(rt: &impl Abort, tests: &Tests) {
    assert!(rt; !tests.is_after(0));
    for proc in 1..2 * CHAIN {
        assert!(rt; tests.is_after(proc), "procedure {proc}");
    }
}

#[test]
fn procedures_that_come_to_play_are_tested(rt: HostRuntime) {
    let code = accepted(&rt, no_event(&rt), procedures(&rt), 0, 0);
    let tests = tests_of(rt.alloc(), &code, false, false).expect(&rt, "there is memory");
    check_tests(&rt, &tests);
}
