//! Charts, event files and words with their answers.
use crate::setup::{CODE, LAMP, SURE, WantedAnswer, check_run};
use flow_base::Status;
use std::process::Abort;

/// Words, a chart or code, and event files with the answers of each of these words.
pub type Group<'a> = (&'a [&'a str], &'a str, &'a [(&'a str, WantedAnswer<'a>)]);

/// Compares the answers of groups.
pub fn check_groups(rt: &(impl AllocGlobal + Abort), groups: &[Group<'_>]) {
    for &(lines, text, rows) in groups {
        check_rows(rt, lines, text, rows);
    }
}

/// Compares the answers of these words over a chart or code with each event file.
pub fn check_rows(
    rt: &(impl AllocGlobal + Abort),
    lines: &[&str],
    text: &str,
    rows: &[(&str, WantedAnswer<'_>)],
) {
    for &(events, want) in rows {
        check_lines(rt, lines, text, events, want);
    }
}

/// The same answer for each of these words.
pub fn check_lines(
    rt: &(impl AllocGlobal + Abort),
    lines: &[&str],
    text: &str,
    events: &str,
    want: WantedAnswer<'_>,
) {
    for &line in lines {
        check(rt, line, text, events, want);
    }
}

/// Runs the program with these words over a chart or code, and compares status, output and line.
pub fn check(
    rt: &(impl AllocGlobal + Abort),
    line: &str,
    text: &str,
    events: &str,
    want: WantedAnswer<'_>,
) {
    check_run(rt, line, text, events, 5, SURE, want);
}

/// The first line of the trace of the lamp.
pub const START: &str = "0 start [Off] - - ok\n";

/// Words that run a chart by the rules and as compiled code.
pub const RUNS: &[&str] = &["rules c e", "run c e"];

/// Words that run code.
pub const EXEC: &[&str] = &["exec c e"];

/// Event files of the lamp.
const EVENT_FILES: &[(&str, WantedAnswer<'_>)] = &[
    ("", (Status::Ok, START, "")),
    (
        "GO\nGO\ntick\n",
        (
            Status::Ok,
            "0 start [Off] - - ok\n1 GO [On] - - ok\n2 GO [Off] - - ok\n3 tick [Off] - - ok\n",
            "",
        ),
    ),
    (
        "tick",
        (
            Status::Ok,
            "0 start [Off] - - ok\n1 tick [Off] - - ok\n",
            "",
        ),
    ),
    (
        "\n# GO\n GO\r\n",
        (Status::Ok, "0 start [Off] - - ok\n1 GO [On] - - ok\n", ""),
    ),
    (
        "GO\nNO\nGO\n",
        (
            Status::Refused,
            "0 start [Off] - - ok\n1 GO [On] - - ok\n",
            "event 2: 2 UnknownEvent\n",
        ),
    ),
    (
        "state\n",
        (Status::Refused, START, "event 1: 2 UnknownEvent\n"),
    ),
    (
        "\ntick x=1\n",
        (Status::Refused, START, "event 2: 4 UnknownInput\n"),
    ),
];

#[test]
fn event_files(rt: HostRuntime) {
    check_event_files(&rt, RUNS, LAMP);
    check_event_files(&rt, EXEC, CODE);
}

/// Compares the answers of these words over the chart or the code of the lamp.
fn check_event_files(rt: &(impl AllocGlobal + Abort), lines: &[&str], text: &str) {
    check_rows(rt, lines, text, EVENT_FILES);
}

const USAGE: &str =
    "usage: flowc check CHART, fmt CHART, rules CHART EVENTS, compile CHART, exec CODE EVENTS, run CHART EVENTS, upgrade CODE, bounds CHART, shrink CODE, net NET SCHEDULE, selftest N; --depth D, --steps S\n";

const OTHER_WORDS: &[&str] = &[
    "",
    "rule c e",
    "rules c",
    "rules c e e",
    "rules -c e",
    "rules --depth 33 c e",
    "rules --depth 0 c e",
    "rules --steps 50001 c e",
    "rules c e --steps 50001",
    "rules --steps 9 --steps 9 c e",
    "rules c e --depth",
    "rules c e --depth -1",
    "rules --dept 8 c e",
    "--depth 8 rules c e",
    "rules -- --depth 8 c e",
    "run c",
    "exec c e e",
    "check",
    "check c e",
    "check --depth 8 c",
    "compile -c",
    "fmt",
    "upgrade c e",
    "bounds",
    "bounds c e",
    "bounds --depth 9 c",
    "shrink",
    "shrink c e",
    "shrink --steps 9 c",
    "selftest",
    "selftest x",
    "selftest -0",
    "selftest 4294967296",
    "help",
    "--help",
];

/// Each tick sends an event under which the chart sends again, until sends nest too deep.
const NEST: &str =
    "chart C or { event local L; local n : int8; default -> A; state A { during { n = n + 1; send L; } } }";

/// Words that name no command, words of files, and bounds.
const GROUPS: &[Group<'_>] = &[
    (OTHER_WORDS, LAMP, &[("", (Status::Usage, "", USAGE))]),
    // The empty word names a file, which isn't there.
    (
        &["rules c "],
        LAMP,
        &[("", (Status::Read, START, "read fault\n"))],
    ),
    // One file in both places is given once.
    (&["rules c c"], LAMP, &[("", (Status::Ok, START, ""))]),
    (
        &["rules c e", "run c e"],
        NEST,
        &[(
            "tick\n",
            (
                Status::RunFault,
                "0 start [A] n=0 - ok\n1 tick [A] n=9 - depth\n",
                "run 1: depth\n",
            ),
        )],
    ),
    (
        &["rules --depth 3 c e", "run --depth 3 c e"],
        NEST,
        &[(
            "tick\n",
            (
                Status::RunFault,
                "0 start [A] n=0 - ok\n1 tick [A] n=4 - depth\n",
                "run 1: depth\n",
            ),
        )],
    ),
    (
        &["rules c --depth=+032 e", "run c --depth=+032 e"],
        NEST,
        &[(
            "tick\n",
            (
                Status::RunFault,
                "0 start [A] n=0 - ok\n1 tick [A] n=33 - depth\n",
                "run 1: depth\n",
            ),
        )],
    ),
    (
        &["rules --steps 2 c -- e", "run --steps 2 c -- e"],
        NEST,
        &[(
            "tick\n",
            (
                Status::RunFault,
                "0 start [A] n=0 - ok\n1 tick [A] n=3 - steps\n",
                "run 1: steps\n",
            ),
        )],
    ),
];

#[test]
fn words_and_bounds(rt: HostRuntime) {
    check_groups(&rt, GROUPS);
}

/// The line of the first generated case.
const CASE: &str = "selftest 0: 105 states, 20000 events, 1272694 trace bytes, ok\n";

#[test]
fn the_first_case(rt: HostRuntime) {
    check(&rt, "selftest 0", LAMP, "", (Status::Ok, CASE, ""));
}
