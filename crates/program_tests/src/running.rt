//! Charts that run by the rules and as compiled code, with their traces.
use crate::rows::{Group, RUNS, check, check_groups};
use crate::setup::WantedAnswer;
use flow_base::Status;

/// Nested states, a junction, a broadcast, an event that is emitted, and inputs.
const CHART: &str = "\
    chart C or {\n\
    \x20 event input GO; event local L; event output DONE; input x : sfix8_En4; output n : int8;\n\
    \x20 default -> A;\n\
    \x20 junction j { [x > 1] { n = x; } -> B; -> A; }\n\
    \x20 state A { outer GO -> @j; }\n\
    \x20 state B or {\n\
    \x20   default -> P;\n\
    \x20   state P { during { send L; } outer L { emit DONE; } -> Q; }\n\
    \x20   state Q { outer GO -> P; }\n\
    \x20 }\n\
    }\n";

const START: &str = "0 start [A] x=0,n=0 - ok\n";

/// Event files of that chart: one with inputs, and those that are refused at a line.
const EVENT_FILES: &[(&str, WantedAnswer<'_>)] = &[
    (
        "# idle\n\nGO x=1\r\nGO x=2.5\ntick\n  GO\n",
        (
            Status::Ok,
            "0 start [A] x=0,n=0 - ok\n1 GO [A] x=1,n=0 - ok\n2 GO [B,B/P] x=2.5,n=2 - ok\n\
             3 tick [B,B/Q] x=2.5,n=2 DONE ok\n4 GO [B,B/P] x=2.5,n=2 - ok\n",
            "",
        ),
    ),
    (
        "NO\n",
        (Status::Refused, START, "event 1: 2 UnknownEvent\n"),
    ),
    (
        "\nL\n",
        (Status::Refused, START, "event 2: 3 NotInputEvent\n"),
    ),
    (
        "#\n#\nDONE",
        (Status::Refused, START, "event 3: 3 NotInputEvent\n"),
    ),
    (
        "GO y=1\n",
        (Status::Refused, START, "event 1: 4 UnknownInput\n"),
    ),
    (
        "GO n=1\n",
        (Status::Refused, START, "event 1: 4 UnknownInput\n"),
    ),
    (
        "GO x=1 x=1\n",
        (Status::Refused, START, "event 1: 5 InputTwice\n"),
    ),
    (
        "GO x=8\n",
        (Status::Refused, START, "event 1: 6 BadValue\n"),
    ),
];

#[test]
fn a_long_line(rt: HostRuntime) {
    let long = " ".repeat(rt.alloc(), 4097).expect(&rt, "memory");
    let want = (Status::Refused, START, "event 1: 1 LineTooLong\n");
    check(&rt, "rules c e", CHART, long.as_str(), want);
}

/// The chart over its event files, and charts whose runs end in a fault.
const GROUPS: &[Group<'_>] = &[
    (RUNS, CHART, EVENT_FILES),
    (
        RUNS,
        "chart C or { event local L; local n : int8; default -> A; state A { during { n = n + 1; send L; } } }",
        &[(
            "tick\nNO\n",
            (
                Status::RunFault,
                "0 start [A] n=0 - ok\n1 tick [A] n=9 - depth\n",
                "run 1: depth\n",
            ),
        )],
    ),
    (
        RUNS,
        "chart C or { event input GO; event local L; local n : int16; inner L -> @j; default -> A;\
         junction j { { n = n + 1; } -> @j; } state A { outer GO / { send L; } -> B; } state B { } }",
        &[(
            "tick\nGO\n",
            (
                Status::RunFault,
                "0 start [A] n=0 - ok\n1 tick [A] n=0 - ok\n2 GO [] n=9998 - steps\n",
                "run 2: steps\n",
            ),
        )],
    ),
    (
        RUNS,
        "chart C or { local count : int8 error = 120; default -> A; state A { during { count = count + 5; } } }",
        &[(
            "tick\ntick\n",
            (
                Status::RunFault,
                "0 start [A] count=120 - ok\n1 tick [A] count=125 - ok\n2 tick [A] count=125 - overflow count\n",
                "run 2: overflow count\n",
            ),
        )],
    ),
    (
        RUNS,
        "chart C or { local n : int8; default -> A; state A { entry { n = 1 / n; } } }",
        &[(
            "NO\n",
            (
                Status::RunFault,
                "0 start [A] n=0 - zero\n",
                "run 0: zero\n",
            ),
        )],
    ),
];

#[test]
fn traces_and_faults(rt: HostRuntime) {
    check_groups(&rt, GROUPS);
}
