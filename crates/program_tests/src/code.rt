//! Code texts that the program writes, runs, upgrades and makes smaller, and that it refuses.
use crate::rows::{EXEC, Group, START, check_groups, check_lines, check_rows};
use crate::setup::{CODE, LAMP, Ran, SURE, WantedAnswer, compare, run};
use flow_base::Status;
use std::process::Abort;
use std::str;

/// Event files of the lamp.
const EVENT_FILES: &[(&str, WantedAnswer<'_>)] = &[
    ("", (Status::Ok, START, "")),
    (
        "GO\nGO\ntick\n",
        (
            Status::Ok,
            "0 start [Off] - - ok\n1 GO [On] - - ok\n2 GO [Off] - - ok\n3 tick [Off] - - ok\n",
            "",
        ),
    ),
];

#[test]
fn compiled_chart(rt: HostRuntime) {
    let ran = run(&rt, "compile c", LAMP, "", 64, SURE);
    check_rows(&rt, EXEC, code_of(&rt, &ran), EVENT_FILES);
}

/// The code that a run wrote, which succeeded.
fn code_of<'a>(rt: &impl Abort, ran: &'a Ran) -> &'a str {
    let want = (Status::Ok, "", "");
    compare(
        rt,
        "compile c",
        "",
        (ran.status, &[], ran.err.bytes()),
        want,
    );
    str::from_utf8(ran.out.bytes()).expect(rt, "a text")
}

/// A text of the code, what stands in its place, and why that is refused.
const REFUSED: &[(&str, &str, &str)] = &[
    ("flowcode 1\n", "flowcode 7\n", "code: 4 Version\n"),
    ("procs 2 0 1\n", "procs 2 0 01\n", "code 9: 1 BadLine\n"),
    ("clear 1\n", "keep 1\n", "code 17: 1 BadLine\n"),
    (
        "clear 1\n",
        "call 1 -\n",
        "code: 6 Form 3 CallNotLower 1.2\n",
    ),
    ("mark 2\n", "mark 3\n", "code: 6 Form 1 BadNumber 1.3\n"),
    ("end\n", "", "code: 2 Truncated\n"),
    ("end\n", "end\nend\n", "code 25: 3 Trailing\n"),
];

#[test]
fn refused_code(rt: HostRuntime) {
    for &(old, new, err) in REFUSED {
        check_replaced(&rt, old, new, (Status::Refused, "", err));
    }
}

/// None of `exec`, `upgrade` and `shrink` takes the code with that text in place of the old.
fn check_replaced(rt: &(impl AllocGlobal + Abort), old: &str, new: &str, want: WantedAnswer<'_>) {
    let text = CODE.replace(rt.alloc(), old, new).expect(rt, "memory");
    let lines = &["exec c e", "upgrade c", "shrink c"];
    check_lines(rt, lines, text.as_str(), "GO\n", want);
}

/// Code of the lamp in format 2.
const SECOND: &str = "\
    flowcode 2\n\
    states 3\n\
    s - or Lamp\n\
    s 0 leaf Off\n\
    s 0 leaf On\n\
    data 0\n\
    events 1\n\
    e input GO\n\
    procs 2 0 1\n\
    p 3\n\
    mark 0\n\
    mark 1\n\
    ret 0\n\
    p 9\n\
    unless 7 event 0\n\
    unless 3 on 1\n\
    clear 1\n\
    mark 2\n\
    ret 0\n\
    unless 2 on 2\n\
    clear 2\n\
    mark 1\n\
    ret 0\n\
    end\n";

/// Code with an input, a local datum and an output event. Each event adds the input to the datum
/// and emits the output event where the sum is over 2.
const COUNTER: &str = "\
    flowcode 2\n\
    states 1\n\
    s - leaf Counter\n\
    data 2\n\
    d input sfix8_En1 saturate 0 x\n\
    d local sfix8_En1 error 1 sum\n\
    events 2\n\
    e input ADD\n\
    e output BIG\n\
    procs 2 0 1\n\
    p 2\n\
    mark 0\n\
    ret 0\n\
    p 4\n\
    set 1 + d1 d0\n\
    unless 1 expr > d1 #2:0\n\
    emit 1\n\
    ret 0\n\
    end\n";

/// Event files of the counter with their answers.
const COUNTS: &[(&str, WantedAnswer<'_>)] = &[
    (
        "ADD x=1.5\nADD\ntick x=0\n",
        (
            Status::Ok,
            "0 start [] x=0,sum=0.5 - ok\n\
             1 ADD [] x=1.5,sum=2 - ok\n\
             2 ADD [] x=1.5,sum=3.5 BIG ok\n\
             3 tick [] x=0,sum=3.5 BIG ok\n",
            "",
        ),
    ),
    (
        "ADD x=63\nADD\nADD\n",
        (
            Status::RunFault,
            "0 start [] x=0,sum=0.5 - ok\n\
             1 ADD [] x=63,sum=63.5 BIG ok\n\
             2 ADD [] x=63,sum=63.5 - overflow sum\n",
            "run 2: overflow sum\n",
        ),
    ),
    (
        "ADD x=0.25\n",
        (
            Status::Refused,
            "0 start [] x=0,sum=0.5 - ok\n",
            "event 1: 6 BadValue\n",
        ),
    ),
];

/// Code of the lamp whose reaction has a constant test, before a skip over what is never reached. No
/// procedure calls its second one.
const DECIDED: &str = "\
    flowcode 1\n\
    states 3\n\
    s - or Lamp\n\
    s 0 leaf Off\n\
    s 0 leaf On\n\
    data 0\n\
    events 1\n\
    e input GO\n\
    procs 3 0 2\n\
    p 3\n\
    mark 0\n\
    mark 1\n\
    ret 0\n\
    p 1\n\
    ret 0\n\
    p 4\n\
    unless 1 expr < #1:0 #2:0\n\
    skip 1\n\
    clear 1\n\
    ret 0\n\
    end\n";

/// The smaller code of the same meaning.
const SMALLER: &str = "\
    flowcode 2\n\
    states 3\n\
    s - or Lamp\n\
    s 0 leaf Off\n\
    s 0 leaf On\n\
    data 0\n\
    events 1\n\
    e input GO\n\
    procs 2 0 1\n\
    p 3\n\
    mark 0\n\
    mark 1\n\
    ret 0\n\
    p 1\n\
    ret 0\n\
    end\n";

const UPGRADE: &[&str] = &["upgrade c"];

const SHRINK: &[&str] = &["shrink c"];

/// The upgraded code of the lamp, smaller code, and the counter over its event files.
const GROUPS: &[Group<'_>] = &[
    (UPGRADE, CODE, &[("", (Status::Ok, SECOND, ""))]),
    (UPGRADE, SECOND, &[("", (Status::Ok, SECOND, ""))]),
    (SHRINK, CODE, &[("", (Status::Ok, SECOND, ""))]),
    (SHRINK, SECOND, &[("", (Status::Ok, SECOND, ""))]),
    (SHRINK, DECIDED, &[("", (Status::Ok, SMALLER, ""))]),
    (SHRINK, SMALLER, &[("", (Status::Ok, SMALLER, ""))]),
    (
        EXEC,
        SECOND,
        &[(
            "GO\n",
            (Status::Ok, "0 start [Off] - - ok\n1 GO [On] - - ok\n", ""),
        )],
    ),
    (EXEC, COUNTER, COUNTS),
];

#[test]
fn upgraded_and_smaller_code(rt: HostRuntime) {
    check_groups(&rt, GROUPS);
}
