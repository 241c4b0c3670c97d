//! Nets of two charts over schedules, with their traces.
use crate::setup::{WantedAnswer, compare, file, sink, words};
use flow_base::{MemInputs, Status};
use flow_program::chart_main;
use std::process::Abort;

/// Each `GO` makes `v` greater by 5 and emits `o`.
const A: &str = "\
    chart A or { event input GO; event output o; output v : int16; default -> S; \
    state S { outer GO { v = v + 5; emit o; } -> S; } }";

/// Each `IN` adds `x` to `t`.
const B: &str = "\
    chart B or { event input IN; input x : int16; local t : int16; default -> S; \
    state S { outer IN { t = t + x; } -> S; } }";

/// A route from the first chart to the second, which carries `v` to `x`.
const NET: &str = "\
    flownet 1\ncharts 2\nc a a\nc b b\nroutes 1\nr 0 o 1 IN 2 v x\nend\n";

/// A route for an event that isn't emitted.
const NO_OUTPUT: &str = "\
    flownet 1\ncharts 2\nc a a\nc b b\nroutes 1\nr 0 GO 1 IN 2 v x\nend\n";

/// Net texts with schedules and their answers.
const ROWS: &[(&str, &str, WantedAnswer<'_>)] = &[
    (
        NET,
        "ev a GO\nev a GO\ntake 0\ntake 0\ntake 0\n",
        (
            Status::RunFault,
            "0 a 0 start [S] v=0 - ok\n0 b 0 start [S] x=0,t=0 - ok\n1 a 1 GO [S] v=5 o ok\n\
             2 a 2 GO [S] v=10 o ok\n3 b 1 IN [S] x=5,t=5 - ok\n4 b 2 IN [S] x=10,t=15 - ok\n\
             5 empty 0\n",
            "run 5: empty 0\n",
        ),
    ),
    (
        NET,
        "ev a GO\nev a GO\nev a GO\n",
        (
            Status::RunFault,
            "0 a 0 start [S] v=0 - ok\n0 b 0 start [S] x=0,t=0 - ok\n1 a 1 GO [S] v=5 o ok\n\
             2 a 2 GO [S] v=10 o ok\n3 a 3 GO [S] v=15 o full 0\n",
            "run 3: full 0\n",
        ),
    ),
    (NO_OUTPUT, "", (Status::Refused, "", "net 6: 4 BadRoute\n")),
    (
        NET,
        "take 1\n",
        (
            Status::Refused,
            "0 a 0 start [S] v=0 - ok\n0 b 0 start [S] x=0,t=0 - ok\n",
            "event 1: 8 BadStep\n",
        ),
    ),
    (
        "flownet 1\ncharts 02\n",
        "",
        (Status::Refused, "", "net 2: 1 BadLine\n"),
    ),
    (
        "flownet 1\ncharts 1\nc a e\nroutes 0\nend\n",
        "chart Lamp or {",
        (Status::Refused, "", "chart a 1:16: 3 Expected\n"),
    ),
    (
        "flownet 1\ncharts 2\nc a b\nc d b\nroutes 0\nend\n",
        "ev d IN x=2\n",
        (
            Status::Ok,
            "0 a 0 start [S] x=0,t=0 - ok\n0 d 0 start [S] x=0,t=0 - ok\n1 d 1 IN [S] x=2,t=2 - ok\n",
            "",
        ),
    ),
];

#[test]
fn nets(rt: HostRuntime) {
    for &(net, schedule, want) in ROWS {
        check_net(&rt, net, schedule, want);
    }
}

/// Runs the net of the file `n` over the schedule of the file `e`, and compares what it left.
fn check_net(rt: &(impl AllocGlobal + Abort), net: &str, schedule: &str, want: WantedAnswer<'_>) {
    let files = [
        file(rt, "n", net, 7, &[]),
        file(rt, "e", schedule, 3, &[]),
        file(rt, "a", A, 7, &[]),
        file(rt, "b", B, 7, &[]),
    ];
    let mut inputs = MemInputs::new(Vec::from_array(rt.alloc(), files).expect(rt, "memory"));
    let mut out = sink(rt, 5, &[]);
    let mut err = sink(rt, 4096, &[]);
    let words = words(rt, "net n e");
    let status = chart_main(rt.alloc(), &words, &mut inputs, &mut out, &mut err);
    compare(
        rt,
        "net n e",
        schedule,
        (status, out.bytes(), err.bytes()),
        want,
    );
}
