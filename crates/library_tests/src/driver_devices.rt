//! Reads and writes that fail.
ghost use Rattle.std.specs.Prelude.{◌<◌};

use crate::checks::check;
use crate::driver_setup::{Devices, run_text};
use flow_base::{Inputs, MemInputs};
use std::process::Abort;
use step_driver::DriveEnd;

/// The trace of `GO` three times.
const TRACE: &str =
    "0 start [] by=0,count=0 - ok\n1 GO [] by=0,count=0 DONE,DONE ok\n2 GO [] by=0,count=0 DONE,DONE ok\n3 GO [] by=0,count=0 DONE,DONE ok\n";

/// Which read fails, and how long the lines of the trace are that stand then.
const READS: &[(u64, usize)] = &[(1, 29), (2, 63), (3, 97), (4, 131)];

/// Each line of the file has the length of a read, and the fourth read finds the end.
#[test]
fn a_failed_read_leaves_the_whole_lines(rt: HostRuntime) {
    for &(read, length) in READS {
        let devices = Devices {
            read_size: 3,
            failing_reads: &[read],
            write_size: 1000,
            failing_writes: &[],
        };
        let ran = run_text(&rt, b"GO\nGO\nGO\n", &devices);
        let found = (ran.answer, front(ran.out.bytes()));
        check(&rt, &read, &found, &(Err(DriveEnd::Read), Some(length)));
        drop(ran);
    }
}

/// The length of what was written, where that is a front of the trace.
fn front(bytes: &[u8]) -> Option<usize> {
    if TRACE.as_bytes().starts_with(bytes) {
        Some(bytes.len())
    } else {
        None
    }
}

/// The first line of the trace takes 5 writes, and up to the fifth no byte of the file may be read.
/// The other lines take 5 writes each, and 15 together where their events are read at once.
#[test]
fn a_failed_write_leaves_a_front(rt: HostRuntime) {
    for write in 1..21u64 {
        check_write(&rt, 3, write);
        check_write(&rt, 4096, write);
    }
}

/// Over a file that comes in pieces of that size, and a sink of which that write fails, less than
/// the trace is written.
fn check_write(rt: &(impl AllocGlobal + Abort), read_size: usize, write: u64)
    requires { 0 < read_size }
{
    let devices = Devices {
        read_size,
        failing_reads: &[],
        write_size: 7,
        failing_writes: &[write],
    };
    let mut ran = run_text(rt, b"GO\nGO\nGO\n", &devices);
    let left = left(&mut ran.inputs);
    let written = front(ran.out.bytes()).unwrap_or(TRACE.len());
    let stands = written < TRACE.len() && (write > 5 || left == 9);
    let found = (ran.answer, stands);
    check(
        rt,
        &(write, read_size, left),
        &found,
        &(Err(DriveEnd::Write), true),
    );
    drop(ran);
}

/// How many bytes four more reads give.
fn left(inputs: &mut MemInputs) -> usize {
    let mut left = 0usize;
    for _read in 0..4 {
        let mut bytes = [0u8; 8];
        let given = inputs.read("events", &mut bytes).unwrap_or(0);
        left = given.saturating_add(left);
    }
    left
}
