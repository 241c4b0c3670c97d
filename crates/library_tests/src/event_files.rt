//! Event files, in pieces of several sizes.
ghost use Rattle.std.specs.Prelude.{◌<◌};

use crate::checks::check;
use crate::driver_setup::{Devices, run_text};
use event_file::LineFault;
use flow_base::Fault;
use std::process::Abort;
use step_driver::DriveEnd;

/// The line with index 0.
const START: &[u8] = b"0 start [] by=0,count=0 - ok\n";

/// A file, the answer, and the trace after the line with index 0.
const ROWS: &[(&str, Result<(), DriveEnd>, &str)] = &[
    ("", Ok(()), ""),
    ("GO", Ok(()), "1 GO [] by=0,count=0 DONE,DONE ok\n"),
    ("GO\n", Ok(()), "1 GO [] by=0,count=0 DONE,DONE ok\n"),
    (
        "\n \t\n# x\n#\ntick\r\n\r",
        Ok(()),
        "1 tick [] by=0,count=0 - ok\n",
    ),
    (
        "tick by=1.5\n  GO\ttick",
        Err(DriveEnd::Line(2, LineFault::UnknownInput)),
        "1 tick [] by=1.5,count=1.5 - ok\n",
    ),
    (
        "tick\tby=-0.0625\nGO\ntick",
        Ok(()),
        "1 tick [] by=-0.0625,count=-0.0625 - ok\n2 GO [] by=-0.0625,count=-0.0625 DONE,DONE ok\n3 tick [] by=-0.0625,count=-0.125 - ok\n",
    ),
    ("\rGO", Err(DriveEnd::Line(1, LineFault::UnknownEvent)), ""),
    ("G\rO", Err(DriveEnd::Line(1, LineFault::UnknownEvent)), ""),
    ("GO\r", Ok(()), "1 GO [] by=0,count=0 DONE,DONE ok\n"),
    ("GO \r\n", Ok(()), "1 GO [] by=0,count=0 DONE,DONE ok\n"),
    (
        "GO\r\r\n",
        Err(DriveEnd::Line(1, LineFault::UnknownEvent)),
        "",
    ),
    ("G\0O", Err(DriveEnd::Line(1, LineFault::UnknownEvent)), ""),
    (
        "NO\nGO",
        Err(DriveEnd::Line(1, LineFault::UnknownEvent)),
        "",
    ),
    (
        "by=1 GO",
        Err(DriveEnd::Line(1, LineFault::UnknownEvent)),
        "",
    ),
    ("G\nO", Err(DriveEnd::Line(1, LineFault::UnknownEvent)), ""),
    (
        "\nDONE by=x",
        Err(DriveEnd::Line(2, LineFault::NotInputEvent)),
        "",
    ),
    ("GO by", Err(DriveEnd::Line(1, LineFault::UnknownInput)), ""),
    ("GO =1", Err(DriveEnd::Line(1, LineFault::UnknownInput)), ""),
    (
        "GO count=1",
        Err(DriveEnd::Line(1, LineFault::UnknownInput)),
        "",
    ),
    (
        "GO by=1 by=x",
        Err(DriveEnd::Line(1, LineFault::InputTwice)),
        "",
    ),
    (
        "GO by=x count=1",
        Err(DriveEnd::Line(1, LineFault::BadValue)),
        "",
    ),
    ("GO by=1=1", Err(DriveEnd::Line(1, LineFault::BadValue)), ""),
    ("GO by=", Err(DriveEnd::Line(1, LineFault::BadValue)), ""),
    (
        "GO by=true",
        Err(DriveEnd::Line(1, LineFault::BadValue)),
        "",
    ),
    ("GO by=1q0", Err(DriveEnd::Line(1, LineFault::BadValue)), ""),
    ("GO by=+1", Err(DriveEnd::Line(1, LineFault::BadValue)), ""),
    ("GO by=1.", Err(DriveEnd::Line(1, LineFault::BadValue)), ""),
    ("GO by=0.1", Err(DriveEnd::Line(1, LineFault::BadValue)), ""),
    (
        "GO by=7.9375",
        Ok(()),
        "1 GO [] by=7.9375,count=0 DONE,DONE ok\n",
    ),
    ("GO by=8", Err(DriveEnd::Line(1, LineFault::BadValue)), ""),
    ("GO by=-8", Ok(()), "1 GO [] by=-8,count=0 DONE,DONE ok\n"),
    (
        "GO by=-8.0625",
        Err(DriveEnd::Line(1, LineFault::BadValue)),
        "",
    ),
    ("GO by=-0", Ok(()), "1 GO [] by=0,count=0 DONE,DONE ok\n"),
    (
        "GO by=000000000000000000000000000000000002",
        Ok(()),
        "1 GO [] by=2,count=0 DONE,DONE ok\n",
    ),
    (
        "GO by=0000000000000000000000000000000000002",
        Err(DriveEnd::Line(1, LineFault::BadValue)),
        "",
    ),
    (
        "tick by=5\ntick\nNO",
        Err(DriveEnd::Fault(2, Fault::Overflow(1))),
        "1 tick [] by=5,count=5 - ok\n2 tick [] by=5,count=5 - overflow count\n",
    ),
];

#[test]
fn files_are_answered(rt: HostRuntime) {
    for &(text, answer, trace) in ROWS {
        shows(&rt, text, 1, answer, trace);
        shows(&rt, text, 3, answer, trace);
        shows(&rt, text, 4096, answer, trace);
    }
}

/// A run over that text, in pieces of that size, has that answer, and that trace after the line
/// with index 0.
fn shows(
    rt: &(impl AllocGlobal + Abort),
    text: &str,
    piece: usize,
    answer: Result<(), DriveEnd>,
    trace: &str,
)
    requires { 0 < piece }
{
    let devices = Devices {
        read_size: piece,
        failing_reads: &[],
        write_size: 7,
        failing_writes: &[],
    };
    let ran = run_text(rt, text.as_bytes(), &devices);
    let found = (ran.answer, ran.out.bytes().strip_prefix(START));
    check(
        rt,
        &(text, piece),
        &found,
        &(answer, Some(trace.as_bytes())),
    );
    drop(ran);
}
