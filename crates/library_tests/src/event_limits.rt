//! Files at the limits, and just past them.
ghost use Rattle.std.specs.Prelude.{◌<◌};

use crate::checks::check;
use crate::driver_setup::{Devices, run, run_text};
use event_file::LineFault;
use fixed_point::Scale;
use flow_base::{MemFile, SureInputs, SureSink};
use std::process::Abort;
use step_driver::DriveEnd;

/// The bytes of `front`, those of `text` that number of times, and those of `tail`.
fn repeated(
    rt: &(impl AllocGlobal + Abort),
    front: &str,
    text: &str,
    count: usize,
    tail: &str,
) -> Vec<u8> {
    let mut bytes = Vec::from_slice(rt.alloc(), front.as_bytes()).expect(rt, "memory");
    for _time in 0..count {
        bytes
            .extend_from_slice(text.as_bytes())
            .expect(rt, "memory");
    }
    bytes
        .extend_from_slice(tail.as_bytes())
        .expect(rt, "memory");
    bytes
}

const LONG: Result<(), DriveEnd> = Err(DriveEnd::Line(2, LineFault::LineTooLong));

const UNKNOWN: Result<(), DriveEnd> = Err(DriveEnd::Line(2, LineFault::UnknownEvent));

/// A text, how often it stands in the second line, what follows, and the answer.
const LINES: &[(&str, usize, &str, Result<(), DriveEnd>)] = &[
    ("a", 4096, "", UNKNOWN),
    ("a", 4096, "\n", UNKNOWN),
    ("a", 4097, "", LONG),
    ("a", 4097, "\n", LONG),
    ("#", 4096, "\nGO", Ok(())),
    ("#", 4096, "\r\n", LONG),
    ("#", 4095, "\r\nGO", Ok(())),
    ("#", 4097, "\n", LONG),
    (" ", 4096, "", Ok(())),
    (" ", 4097, "", LONG),
    ("\0", 1, "\n", UNKNOWN),
];

#[test]
fn lines_at_the_limit(rt: HostRuntime) {
    for &(text, count, tail, answer) in LINES {
        let bytes = repeated(&rt, "GO\n", text, count, tail);
        ends(&rt, &bytes, 1, answer, (text, count, tail));
        ends(&rt, &bytes, 3, answer, (text, count, tail));
        ends(&rt, &bytes, 4096, answer, (text, count, tail));
    }
}

/// A run over these bytes, in pieces of that size, has that answer.
fn ends(
    rt: &(impl AllocGlobal + Abort),
    bytes: &[u8],
    piece: usize,
    answer: Result<(), DriveEnd>,
    row: (&str, usize, &str),
)
    requires { 0 < piece }
{
    let devices = Devices {
        read_size: piece,
        failing_reads: &[],
        write_size: 1000,
        failing_writes: &[],
    };
    let ran = run_text(rt, bytes, &devices);
    check(rt, &(row, piece), &ran.answer, &answer);
    drop(ran);
}

/// A run over a file of that many lines, each of which is that text with its newline, has that
/// answer.
fn ends_after(
    rt: &(impl AllocGlobal + Abort),
    line: &str,
    count: usize,
    answer: Result<(), DriveEnd>,
) {
    let name = String::from_str(rt.alloc(), "events").expect(rt, "memory");
    let bytes = repeated(rt, "", line, count, "");
    let events = MemFile::new(name, bytes, 8192, Vec::new(rt.alloc()));
    let files = Vec::from_array(rt.alloc(), [events]).expect(rt, "memory");
    let scale = Scale::make(true, 8, 0).expect(rt, "a scale");
    let mut inputs = SureInputs::new(files);
    let got = run(rt, scale, &mut inputs, &mut SureSink::new());
    check(rt, &(line, count), &got, &answer);
    drop(inputs);
}

#[test]
fn files_at_the_limit(rt: HostRuntime) {
    ends_after(&rt, "tick\n", 1_000_000, Ok(()));
    ends_after(&rt, "tick\n", 1_000_001, Err(DriveEnd::TooManyLines));
    // 64 bytes a line, the newline included
    let line = "# 3456789012345678901234567890123456789012345678901234567890123\n";
    ends_after(&rt, line, 1_048_577, Err(DriveEnd::FileTooLong));
}
