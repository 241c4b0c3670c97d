//! Devices that fail, and devices that never do.
ghost use Rattle.std.specs.Prelude.{◌≢◌};

use crate::rows::START;
use crate::setup::{CODE, Fails, LAMP, WantedAnswer, check_run, compare, file, words};
use flow_base::{Sink, Status, SureInputs, SureSink};
use flow_program::chart_main;
use std::alloc::Global;
use std::process::Abort;

/// Over inputs and an output that never fail, neither a read nor a write fault is answered.
fn sure_status<E: Sink>(
    alloc: Global,
    words: &[String],
    inputs: &mut SureInputs,
    err: &mut E,
) -> Status
    ensures read { result ≢ Status.Read }
    ensures write { result ≢ Status.Write }
{
    let mut out = SureSink::new();
    chart_main(alloc, words, inputs, &mut out, err)
}

#[test]
fn sure_devices(rt: HostRuntime) {
    let mut inputs = sure_inputs(&rt);
    let words = words(&rt, "rules c e");
    let status = sure_status(rt.alloc(), &words, &mut inputs, &mut SureSink::new());
    compare(
        &rt,
        "rules c e",
        "",
        (status, &[], &[]),
        (Status::Ok, "", ""),
    );
}

/// The chart of the lamp, whose first read would fail, and no events.
fn sure_inputs(rt: &(impl AllocGlobal + Abort)) -> SureInputs {
    let files = [file(rt, "c", LAMP, 9, &[1])];
    SureInputs::new(Vec::from_array(rt.alloc(), files).expect(rt, "memory"))
}

/// Commands that run the lamp, over its chart or its code.
const COMMANDS: &[(&str, &str)] = &[("rules c e", LAMP), ("exec c e", CODE), ("run c e", LAMP)];

/// Commands that make a text whole before anything is written, in one piece.
const TEXTS: &[(&str, &str)] = &[
    ("check c", LAMP),
    ("bounds c", LAMP),
    ("compile c", LAMP),
    ("fmt c", LAMP),
    ("upgrade c", CODE),
    ("shrink c", CODE),
];

/// The trace of `GO` twice.
const GIVEN: &str = "0 start [Off] - - ok\n1 GO [On] - - ok\n2 GO [Off] - - ok\n";

/// Commands with a chart or code, what fails, and the answer.
const FAILS: &[(&[(&str, &str)], Fails<'_>, WantedAnswer<'_>)] = &[
    (
        COMMANDS,
        (&[3], &[], &[]),
        (Status::Read, GIVEN, "read fault\n"),
    ),
    (
        COMMANDS,
        (&[], &[1], &[]),
        (Status::Write, "", "write fault\n"),
    ),
    (
        COMMANDS,
        (&[], &[2], &[]),
        (Status::Write, START, "write fault\n"),
    ),
    // A failing line changes nothing else.
    (COMMANDS, (&[], &[2], &[1]), (Status::Write, START, "")),
    (
        TEXTS,
        (&[], &[1], &[]),
        (Status::Write, "", "write fault\n"),
    ),
];

#[test]
fn failing_devices(rt: HostRuntime) {
    for &(commands, fails, want) in FAILS {
        check_fails(&rt, commands, fails, want);
    }
}

/// The same answer for each of these commands, with the listed reads and writes failing.
fn check_fails(
    rt: &(impl AllocGlobal + Abort),
    commands: &[(&str, &str)],
    fails: Fails<'_>,
    want: WantedAnswer<'_>,
) {
    for &(line, text) in commands {
        check_run(rt, line, text, "GO\nGO\nGO\n", 4096, fails, want);
    }
}
