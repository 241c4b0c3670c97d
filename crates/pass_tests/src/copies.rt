//! Copies by depth of a code whose reaction sends to itself.
use crate::setup::{accepted, check_targets, doing, list, one_event};
use code_language::Instr;
use code_pure_copies::{Copies, copy_by_depth};
use flow_base::List;
use std::process::Abort;

/// A start, a procedure that sends to the one with the number, and a reaction that calls it.
fn procedures(rt: &(impl AllocGlobal + Abort), target: u32) -> List<List<Instr>> {
    let procs = [
        doing(rt, Instr::Skip(0)),
        doing(rt, Instr::SendTo(0, 0, target)),
        doing(rt, Instr::Call(1, None)),
    ];
    list(rt, procs)
}

/// The copies by depth of the code of these procedures.
fn copies_for(rt: &(impl AllocGlobal + Abort), target: u32, depth: u32) -> Option<Copies> {
    let code = accepted(rt, one_event(rt), procedures(rt, target), 0, 2);
    copy_by_depth(rt.alloc(), &code, depth).expect(rt, "there is memory")
}

/// Asserts that there are three copies of the last two procedures, the copies of the first of them
/// sending to those of the other.
fn check_copies(rt: &impl Abort, made: &Copies) {
    assert_eq!(rt; made.origins.as_slice(), [0, 1, 1, 1, 2, 2, 2].as_slice());
    check_targets(rt, &made.code, &[(1, 5), (2, 6), (3, 6)]);
}

#[test]
fn sends_that_come_back_go_one_copy_deeper(rt: HostRuntime) {
    check_copies(&rt, &copies_for(&rt, 2, 2).expect(&rt, "there are copies"));
}

#[test]
fn a_send_that_does_not_come_back_has_no_copies(rt: HostRuntime) {
    assert!(rt; copies_for(&rt, 0, 2).is_none());
}
