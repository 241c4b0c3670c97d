//! Chart texts with their canonical texts, which stay as they are.
use crate::rows::{Group, check, check_groups};
use crate::setup::LAMP;
use flow_base::Status;

/// Each production, precedence and normalisation.
const TEXTS: &[(&str, &str)] = &[
    (
        LAMP,
        "chart Lamp or {\n  event input GO;\n  default -> Off;\n  state Off {\n    outer GO -> On;\n  }\n  state On {\n    outer GO -> Off;\n  }\n}\n",
    ),
    ("// c\nchart\tC//x\r\n{ // y\n}", "chart C {\n}\n"),
    // Items have an order, empty blocks are left out, and child states make an OR.
    (
        "chart C { state A { } junction j { -> A; } inner -> A; default -> A; during { } entry { x = 1; }\
         local x : int8; event local E; event output F; }",
        "chart C or {\n  event local E;\n  event output F;\n  local x : int8;\n  entry { x = 1; }\n  default -> A;\n\
         \x20 inner -> A;\n  junction j {\n    -> A;\n  }\n  state A {\n  }\n}\n",
    ),
    (
        "chart C and { state A or { exit { emit E; } during { send E; send E to B/D; } entry { }\
         outer E [x > 0] { x = 1; } / { x = 2; } -> @j; inner -> A/B; outer { } / { } -> A; default [true] -> B; state B { } } }",
        "chart C and {\n  state A or {\n    during { send E; send E to B/D; }\n    exit { emit E; }\n    default [true] -> B;\n\
         \x20   inner -> A/B;\n    outer E [x > 0] { x = 1; } / { x = 2; } -> @j;\n    outer -> A;\n    state B {\n    }\n  }\n}\n",
    ),
    // Types have one word, and a first value of 0 or false is left out.
    (
        "chart C { input a : bool = false; output b : bool = true; local c : sfix16_En0 = 0; local d : ufix8 wrap = -0.0;\
         local e : sfix16_En8 saturate = 00.50; local f : int32 error = -5q0; local g : ufix7_En3 = 0.1q8; local h : uint64;\
         local i : sfix64_En32 = -1.25; local j : bool = 0.0; local k : int8 = false; }",
        "chart C {\n  input a : bool;\n  output b : bool = true;\n  local c : int16;\n  local d : uint8 wrap;\n\
         \x20 local e : sfix16_En8 = 0.50;\n  local f : int32 error = -5q0;\n  local g : ufix7_En3 = 0.1q8;\n  local h : uint64;\n\
         \x20 local i : sfix64_En32 = -1.25;\n  local j : bool = 0;\n  local k : int8 = false;\n}\n",
    ),
    // Parentheses stand where they are needed.
    (
        "chart C { default [((a)) + (b * c) - (d - e)] -> A; default [(a + b) * c / (d / e)] -> A;\
         default [!(a) && (b || c) || d == (e != f)] -> A; default [-(-a) + !(!b) - -(c + d)] -> A;\
         default [(in(A/B))] -> A; default [(a < b) == (c >= d) && (1 <= 2.50q3)] -> A; }",
        "chart C {\n  default [a + b * c - (d - e)] -> A;\n  default [(a + b) * c / (d / e)] -> A;\n\
         \x20 default [!a && (b || c) || d == (e != f)] -> A;\n  default [--a + !!b - -(c + d)] -> A;\n\
         \x20 default [in(A/B)] -> A;\n  default [(a < b) == (c >= d) && 1 <= 2.50q3] -> A;\n}\n",
    ),
    // The word of a composition stays, also where there are no child states.
    (
        "chart C or { state A and { } }",
        "chart C or {\n  state A and {\n  }\n}\n",
    ),
];

#[test]
fn canonical_texts(rt: HostRuntime) {
    for &(text, want) in TEXTS {
        check(&rt, "fmt c", text, "", (Status::Ok, want, ""));
        check(&rt, "fmt c", want, "", (Status::Ok, want, ""));
    }
}

const FMT: &[&str] = &["fmt c"];

/// Texts that are no chart, with their lines.
const REFUSED: &[Group<'_>] = &[
    (
        FMT,
        "",
        &[("", (Status::Refused, "", "chart 1:1: 3 Expected\n"))],
    ),
    (
        FMT,
        "Ã",
        &[("", (Status::Refused, "", "chart 1:1: 1 BadByte\n"))],
    ),
    (
        FMT,
        "chart C or {\n  state A { }\n\t# }",
        &[("", (Status::Refused, "", "chart 3:2: 2 BadToken\n"))],
    ),
    (
        FMT,
        "chart C { entry { a = 0.1; } }",
        &[(
            "",
            (Status::Refused, "", "chart 1:23: 5 LiteralNotBinary\n"),
        )],
    ),
    (
        FMT,
        "chart C { } }",
        &[("", (Status::Refused, "", "chart 1:13: 3 Expected\n"))],
    ),
];

#[test]
fn refused_texts(rt: HostRuntime) {
    check_groups(&rt, REFUSED);
}
