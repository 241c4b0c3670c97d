//! A code whose procedures send to copies of themselves, level by level.
use crate::setup::{accepted, check_targets, doing, list, one_event};
use code_depths::cut_sends;
use code_language::{Code, Instr};
use flow_base::List;
use std::process::Abort;

/// The procedure that calls nothing.
const LEAF: u32 = 0;

/// The procedure whose level is 2.
const DEEPEST: u32 = 3;

/// A procedure that calls nothing, and three that send: the first one to the second one, that to
/// the third one, and the third one to itself.
fn procedures(rt: &(impl AllocGlobal + Abort)) -> List<List<Instr>> {
    let procs = [
        doing(rt, Instr::Skip(0)),
        doing(rt, Instr::SendTo(0, 0, 2)),
        doing(rt, Instr::SendTo(0, 0, DEEPEST)),
        doing(rt, Instr::SendTo(0, 0, DEEPEST)),
    ];
    list(rt, procs)
}

/// The code of these procedures, cut for this depth.
fn cut_for(rt: &(impl AllocGlobal + Abort), depth: u32) -> Code {
    let code = accepted(rt, one_event(rt), procedures(rt), LEAF, 1);
    cut_sends(rt.alloc(), code, depth).expect(rt, "there is memory")
}

#[test]
fn sends_without_depth_lead_to_the_leaf(rt: HostRuntime) {
    check_targets(&rt, &cut_for(&rt, 2), &[(1, 2), (2, DEEPEST), (3, LEAF)]);
}

#[test]
fn sends_with_depth_stay_as_they_were(rt: HostRuntime) {
    check_targets(&rt, &cut_for(&rt, 3), &[(1, 2), (2, DEEPEST), (3, DEEPEST)]);
}
