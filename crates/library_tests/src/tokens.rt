//! Texts and what they are cut into, worked by hand.
ghost use Rattle.std.specs.Prelude.{◌<◌, ◌^◌, length};

use crate::checks::check;
use chart_lexer::{is_name, lex};
use std::alloc::{AllocError, Global};
use std::fmt::{Debug, Write};
use std::process::Abort;
use token_grammar::{Span, Token};

/// Appends KIND@LINE:COLUMN.
fn show<T: Debug>(line: &mut String, kind: &T, at: Span) -> Result<(), AllocError> {
    write!(line, "{kind:?}@{}:{}", at.line, at.column)
}

/// Appends a token as KIND@LINE:COLUMN+BYTES.
fn show_token(line: &mut String, token: &Token<'_>) -> Result<(), AllocError> {
    show(line, &token.kind, token.at)?;
    write!(line, "+{} ", token.text.len())
}

/// Each token, and then what stands after them.
fn shown(alloc: Global, text: &[u8]) -> Result<String, AllocError>
    requires { length text.now < 2 ^ 31 }
{
    let lexed = lex(alloc, text)?;
    let mut line = String::new(alloc);
    for token in &lexed.tokens {
        show_token(&mut line, token)?;
    }
    show(&mut line, &lexed.stop, lexed.at)?;
    Ok(line)
}

/// Asserts what each text is cut into.
fn check_cuts(rt: &(impl AllocGlobal + Abort), cases: &[(&[u8], &str)]) {
    for (text, want) in cases {
        assert!(rt; text.len() < 1_000, "too long");
        let found = shown(rt.alloc(), text).expect(rt, "memory");
        check(rt, text, &found.as_str(), want);
    }
}

/// Words and names, and what each text is cut into.
const WORDS: &[(&[u8], &str)] = &[
    (
        b"chart or and state",
        "Chart@1:1+5 Or@1:7+2 And@1:10+3 State@1:14+5 End@1:19",
    ),
    (
        b"entry during exit",
        "Entry@1:1+5 During@1:7+6 Exit@1:14+4 End@1:18",
    ),
    (
        b"outer inner default",
        "Outer@1:1+5 Inner@1:7+5 Default@1:13+7 End@1:20",
    ),
    (
        b"junction event input",
        "Junction@1:1+8 Event@1:10+5 Input@1:16+5 End@1:21",
    ),
    (
        b"output local send to",
        "Output@1:1+6 Local@1:8+5 Send@1:14+4 To@1:19+2 End@1:21",
    ),
    (
        b"emit in true false",
        "Emit@1:1+4 In@1:6+2 True@1:9+4 False@1:14+5 End@1:19",
    ),
    (
        b"tick saturate wrap",
        "Tick@1:1+4 Saturate@1:6+8 Wrap@1:15+4 End@1:19",
    ),
    (b"error history", "Error@1:1+5 History@1:7+7 End@1:14"),
    (
        b"Chart charts in_ x9",
        "Name@1:1+5 Name@1:7+6 Name@1:14+3 Name@1:18+2 End@1:20",
    ),
    (
        b"abcdefghijabcdefghijabcdefghijabcdefghijabcdefghijabcdefghijabc or",
        "Name@1:1+63 Or@1:65+2 End@1:67",
    ),
    (
        b"or abcdefghijabcdefghijabcdefghijabcdefghijabcdefghijabcdefghijabcd",
        "Or@1:1+2 BadToken@1:4",
    ),
    (b"_a", "BadToken@1:1"),
];

/// Symbols, and what each text is cut into.
const SYMBOLS: &[(&[u8], &str)] = &[
    (
        b"{}[",
        "OpenBrace@1:1+1 CloseBrace@1:2+1 OpenBracket@1:3+1 End@1:4",
    ),
    (
        b"]()",
        "CloseBracket@1:1+1 OpenParen@1:2+1 CloseParen@1:3+1 End@1:4",
    ),
    (
        b";:,@",
        "Semicolon@1:1+1 Colon@1:2+1 Comma@1:3+1 At@1:4+1 End@1:5",
    ),
    (b"=/+", "Assign@1:1+1 Slash@1:2+1 Plus@1:3+1 End@1:4"),
    (b"-* ->", "Minus@1:1+1 Star@1:2+1 Arrow@1:4+2 End@1:6"),
    (b"== !=", "EqualEqual@1:1+2 NotEqual@1:4+2 End@1:6"),
    (b"<<=<", "Less@1:1+1 LessEqual@1:2+2 Less@1:4+1 End@1:5"),
    (
        b">>=>",
        "Greater@1:1+1 GreaterEqual@1:2+2 Greater@1:4+1 End@1:5",
    ),
    (b"&&||!", "AndAnd@1:1+2 OrOr@1:3+2 Not@1:5+1 End@1:6"),
    (b"===", "EqualEqual@1:1+2 Assign@1:3+1 End@1:4"),
    (b"a&b", "Name@1:1+1 BadToken@1:2"),
    (b"a |", "Name@1:1+1 BadToken@1:3"),
    (b"a.b", "Name@1:1+1 BadToken@1:2"),
    (b"~", "BadToken@1:1"),
];

/// Numbers, and what each text is cut into.
const NUMBERS: &[(&[u8], &str)] = &[
    (
        b"0 007 1.50",
        "Number@1:1+1 Number@1:3+3 Number@1:7+4 End@1:11",
    ),
    (
        b"2q0 2q05 3.5q32",
        "Number@1:1+3 Number@1:5+4 Number@1:10+6 End@1:16",
    ),
    (b"1q3+2", "Number@1:1+3 Plus@1:4+1 Number@1:5+1 End@1:6"),
    (b"7.", "Number@1:1+1 BadToken@1:2"),
    (b"7.q5", "Number@1:1+1 BadToken@1:2"),
    (b"1.5.2", "Number@1:1+3 BadToken@1:4"),
    (b"-1q33", "Minus@1:1+1 BadToken@1:2"),
    (b"1.5q123", "BadToken@1:1"),
    (b"1q2q3", "BadToken@1:1"),
    (b"1q", "BadToken@1:1"),
    (b"1qx", "BadToken@1:1"),
    (b"1_", "BadToken@1:1"),
    (b"1.5e3", "BadToken@1:1"),
];

/// Lines, tabs, comments and bytes of no token, and what each text is cut into.
const PLACES: &[(&[u8], &str)] = &[
    (b"", "End@1:1"),
    (b"\n\n", "End@3:1"),
    (b"\t\ta", "Name@1:3+1 End@1:4"),
    (b"a\r\nb", "Name@1:1+1 Name@2:1+1 End@2:2"),
    (b"a//b\nc", "Name@1:1+1 Comment@1:2+3 Name@2:1+1 End@2:2"),
    (b"//\r\n\tx", "Comment@1:1+3 Name@2:2+1 End@2:3"),
    (
        b"a/ /b // c",
        "Name@1:1+1 Slash@1:2+1 Slash@1:4+1 Name@1:5+1 Comment@1:7+4 End@1:11",
    ),
    (b"a \x7f", "Name@1:1+1 BadByte@1:3"),
    (b"1\x00", "Number@1:1+1 BadByte@1:2"),
    (b"\n// \x80\n", "Comment@2:1+3 BadByte@2:4"),
    (b"//\x0b", "Comment@1:1+2 BadByte@1:3"),
    (b"&\xff", "BadToken@1:1"),
];

#[test]
fn texts_are_cut_into_tokens(rt: HostRuntime) {
    check_cuts(&rt, WORDS);
    check_cuts(&rt, SYMBOLS);
    check_cuts(&rt, NUMBERS);
    check_cuts(&rt, PLACES);
}

/// Texts, and whether each is a name.
const NAMES: &[(&[u8], bool)] = &[
    (b"a", true),
    (b"Go_9", true),
    (
        b"abcdefghijabcdefghijabcdefghijabcdefghijabcdefghijabcdefghijabc",
        true,
    ),
    (
        b"abcdefghijabcdefghijabcdefghijabcdefghijabcdefghijabcdefghijabcd",
        false,
    ),
    (b"tick", false),
    (b"9a", false),
    (b"_a", false),
    (b"a-b", false),
    (b"a ", false),
    (b"", false),
];

#[test]
fn knows_names(rt: HostRuntime) {
    for row in NAMES {
        check(&rt, &"a name", &(row.0, is_name(row.0)), row);
    }
}
