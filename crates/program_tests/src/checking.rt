//! Charts that are accepted, with their counts and their bounds, and charts that are refused.
use crate::rows::{Group, check, check_groups};
use crate::setup::{LAMP, WantedAnswer, compare};
use accepted_charts::chart_fault;
use flow_base::Status;
use std::process::Abort;

const CHECK: &[&str] = &["check c"];

const BOUNDS: &[&str] = &["bounds c"];

/// Words that read the chart.
const OF_CHARTS: &[&str] = &["check c", "bounds c", "rules c e", "compile c", "run c e"];

/// Accepted charts with their counts, and refused charts with their lines.
const GROUPS: &[Group<'_>] = &[
    (
        CHECK,
        LAMP,
        &[(
            "",
            (
                Status::Ok,
                "ok 3 states 0 junctions 3 transitions 3 pairs\n",
                "",
            ),
        )],
    ),
    (
        CHECK,
        "chart C and { state A { } state B { } }",
        &[(
            "",
            (
                Status::Ok,
                "ok 3 states 0 junctions 0 transitions 0 pairs\n",
                "",
            ),
        )],
    ),
    // The list of A and the list of the root both reach j, whose two transitions make a pair
    // with each of them.
    (
        CHECK,
        "chart C or { inner -> @j; default -> A; junction j { [true] -> A; -> B; }\
         state A { outer -> @j; } state B { } }",
        &[(
            "",
            (
                Status::Ok,
                "ok 3 states 1 junctions 5 transitions 7 pairs\n",
                "",
            ),
        )],
    ),
    (BOUNDS, LAMP, &[("", (Status::Ok, "depth 1 steps 1\n", ""))]),
    // The send that GO makes takes a step, at depth 1, and the transition action of L another.
    (
        BOUNDS,
        "chart C or { event input GO; event local L; local n : int16; default -> A;\
         state A { outer GO { send L; } -> B; outer L / { n = 1; } -> B; } state B { } }",
        &[("", (Status::Ok, "depth 1 steps 2\n", ""))],
    ),
    (
        BOUNDS,
        "chart C or { event local L; default -> A; state A { during { send L; } } }",
        &[("", (Status::Ok, "no bounds\n", ""))],
    ),
    (
        OF_CHARTS,
        "chart Lamp or {",
        &[("GO\n", (Status::Refused, "", "chart 1:16: 3 Expected\n"))],
    ),
    (
        OF_CHARTS,
        "chart C { local n : int8; event local n; default -> A; state A { } }",
        &[("GO\n", (Status::Refused, "", "chart 1:39: 9 NameTwice\n"))],
    ),
    (
        OF_CHARTS,
        "chart C { default -> B; state A { } }",
        &[(
            "GO\n",
            (Status::Refused, "", "chart 1:22: 10 UnknownName\n"),
        )],
    ),
    (
        OF_CHARTS,
        "chart C { local n : int64; default -> A; state A { during { n = n * n; } } }",
        &[("GO\n", (Status::Refused, "", "chart 1:67: 13 TooWide\n"))],
    ),
    (
        OF_CHARTS,
        "chart C or { }",
        &[(
            "GO\n",
            (Status::Refused, "", "chart 1:7: 17 EmptyComposition\n"),
        )],
    ),
    (
        OF_CHARTS,
        "chart C and { state P { outer -> Q; } state Q { } }",
        &[(
            "GO\n",
            (Status::Refused, "", "chart 1:34: 23 CrossesRegions\n"),
        )],
    ),
];

#[test]
fn counts_and_refusals(rt: HostRuntime) {
    check_groups(&rt, GROUPS);
}

/// A chart text with each kind of fault of names, types and structure but that of too many pairs.
const FAULTS: &[(&str, &str)] = &[
    (
        "chart C { default -> nobody; state A { } ",
        "chart 1:42: 3 Expected\n",
    ),
    (
        "chart C or { local a : sfix16_En8; default -> A; state A { during { a = 0.1; } } }",
        "chart 1:73: 5 LiteralNotBinary\n",
    ),
    (
        "chart C { event input E; event local E; default -> A; state A { } }",
        "chart 1:38: 9 NameTwice\n",
    ),
    (
        "chart C { default -> B; state A { } }",
        "chart 1:22: 10 UnknownName\n",
    ),
    (
        "chart C { local n : int8; default -> A; state A { outer n -> A; } }",
        "chart 1:57: 11 WrongKind\n",
    ),
    (
        "chart C { local b : bool = -0; default -> A; state A { } }",
        "chart 1:28: 12 TypeClash\n",
    ),
    (
        "chart C { local n : int64; default -> A; state A { during { n = n * n; } } }",
        "chart 1:67: 13 TooWide\n",
    ),
    (
        "chart C { input x : int8; default -> A; state A { during { x = 1; } } }",
        "chart 1:60: 14 AssignsInput\n",
    ),
    (
        "chart C { event output o; state A { } state B or { } state D { outer o -> A; } }",
        "chart 1:70: 15 EventKind\n",
    ),
    (
        "chart C { local n : int8 = 128; default -> A; state A { } }",
        "chart 1:28: 16 InitRange\n",
    ),
    ("chart C { }", "chart 1:7: 17 EmptyComposition\n"),
    ("chart C { state A { } }", "chart 1:7: 18 DefaultMissing\n"),
    (
        "chart C and { default [true] -> A; state A { } }",
        "chart 1:15: 19 DefaultUnwanted\n",
    ),
    (
        "chart C { default [true] -> A; state A { } }",
        "chart 1:11: 20 DefaultOpen\n",
    ),
    (
        "chart C { default -> A; state A { default -> A; state K { } } }",
        "chart 1:46: 21 DefaultLeaves\n",
    ),
    (
        "chart C { default -> A; state A { inner -> B; } state B { } }",
        "chart 1:44: 22 InnerLeaves\n",
    ),
    (
        "chart C and { state P { outer -> P; } }",
        "chart 1:34: 23 CrossesRegions\n",
    ),
    (
        "chart C and { state A { } history; }",
        "chart 1:27: 26 HistoryUnwanted\n",
    ),
];

#[test]
fn first_faults(rt: HostRuntime) {
    for &(chart, line) in FAULTS {
        check_fault(&rt, chart, (Status::Refused, "", line));
    }
}

/// The first fault of a text is the one that `check` tells.
fn check_fault(rt: &(impl AllocGlobal + Abort), chart: &str, want: WantedAnswer<'_>) {
    let line = first_fault(rt, chart);
    compare(
        rt,
        "chart_fault",
        chart,
        (Status::Refused, &[], line.as_bytes()),
        want,
    );
    check(rt, "check c", chart, "", want);
}

/// The line of the first fault of a chart's text.
fn first_fault(rt: &(impl AllocGlobal + Abort), chart: &str) -> String {
    let answer = chart_fault(rt.alloc(), chart.as_bytes()).expect(rt, "memory");
    let fault = answer.expect(rt, "a fault");
    format!(in rt.alloc(); "{fault}\n").expect(rt, "memory")
}
