//! Tests of what no contract says: that calls succeed, and what the file system gives and takes.
ghost use Rattle.std.specs.Prelude.{◌<◌};

use crate::checks::check;
use flow_base::{
    Bounds, Failed, Inputs, List, MemFile, MemInputs, MemSink, ReadEnd, RealInputs, RealSink, Sink,
    SureInputs, SureSink, Text, read_whole, write_all,
};
use std::alloc::Global;
use std::fs;
use std::io::{self, Write};
use std::process::Abort;

/// A file of that name and those bytes, which gives at most `piece` bytes at a read.
fn file(
    rt: &impl Abort,
    alloc: Global,
    name: &str,
    bytes: &[u8],
    piece: usize,
    fail: &[u64],
) -> MemFile
    requires { 0 < piece }
{
    MemFile::new(
        String::from_str(alloc, name).expect(rt, "memory"),
        Vec::from_slice(alloc, bytes).expect(rt, "memory"),
        piece,
        Vec::from_slice(alloc, fail).expect(rt, "memory"),
    )
}

/// Two files named a, the first of which is read, and one named b, whose second read fails.
fn files(rt: &impl Abort, alloc: Global) -> Vec<MemFile> {
    let files = [
        file(rt, alloc, "a", b"hello", 2, &[]),
        file(rt, alloc, "a", b"other", 9, &[]),
        file(rt, alloc, "b", b"bye", 2, &[2]),
    ];
    Vec::from_array(alloc, files).expect(rt, "memory")
}

/// Depths and steps, and whether they are in range.
const BOUNDS: &[(u32, u32, bool)] = &[
    (1, 1, true),
    (32, 50_000, true),
    (0, 1, false),
    (1, 0, false),
    (33, 1, false),
    (32, 50_001, false),
];

#[test]
fn bounds_are_made_in_range(rt: HostRuntime) {
    for row in BOUNDS {
        let (depth, steps, _) = *row;
        let made = (depth, steps, Bounds::make(depth, steps).is_some());
        check(&rt, &"whether bounds are made", &made, row);
    }
    let usual = Some(Bounds::usual());
    check(&rt, &"usual", &Bounds::make(8, 10_000), &usual);
}

/// A text, and a list of two items that gets a third.
#[test]
fn texts_and_lists_keep_what_they_get(rt: HostRuntime) {
    let text = Text::of(String::from_str(rt.alloc(), "red").expect(&rt, "memory"));
    check(&rt, &"the text", &text.text(), &"red");
    let two = Vec::from_slice(rt.alloc(), &[1u32, 2]).expect(&rt, "memory");
    let mut list = List::of(two);
    list.push(3).expect(&rt, "memory");
    check(&rt, &"the items", &list.items(), &[1u32, 2, 3].as_slice());
}

/// A read: the name, the answer and the bytes.
type ReadRow = (&'static str, Result<usize, Failed>, &'static [u8]);

/// Reads once into the cleared buffer, and gives the answer and the bytes that came.
fn read_once<'a, I: Inputs>(
    inputs: &mut I,
    name: &str,
    buffer: &'a mut [u8],
) -> (Result<usize, Failed>, &'a [u8]) {
    buffer.fill(0);
    match inputs.read(name, buffer) {
        Ok(count) => (Ok(count), &buffer[..count]),
        Err(Failed) => (Err(Failed), &[]),
    }
}

/// Asserts what reads into a buffer give, in their order.
fn check_reads<I: Inputs>(rt: &impl Abort, inputs: &mut I, buffer: &mut [u8], reads: &[ReadRow]) {
    for row in reads {
        let found = read_once(inputs, row.0, buffer);
        check(rt, &row.0, &found, &(row.1, row.2));
    }
}

/// Reads of `files` in their order.
const READS: &[ReadRow] = &[
    ("a", Ok(2), b"he"),
    ("b", Ok(2), b"by"),
    ("b", Err(Failed), b""),
    ("c", Err(Failed), b""),
    ("a", Ok(2), b"ll"),
    ("a", Ok(1), b"o"),
    ("a", Ok(0), b""),
    ("b", Ok(1), b"e"),
];

/// Reads of `files` where none fails, in their order.
const SURE_READS: &[ReadRow] = &[
    ("b", Ok(2), b"by"),
    ("b", Ok(1), b"e"),
    ("b", Ok(0), b""),
    ("c", Ok(0), b""),
    ("a", Ok(2), b"he"),
];

#[test]
fn reads_give_the_next_bytes_or_fail(rt: HostRuntime) {
    let mut inputs = MemInputs::new(files(&rt, rt.alloc()));
    check_reads(&rt, &mut inputs, &mut [0u8; 4], READS);
    drop(inputs);
    let mut sure = SureInputs::new(files(&rt, rt.alloc()));
    check_reads(&rt, &mut sure, &mut [0u8; 4], SURE_READS);
    drop(sure);
}

/// A name, and then a limit, what `read_whole` answers up to it, and the bytes that it gives.
type WholeRow = (&'static str, (usize, Result<(), ReadEnd>, &'static [u8]));

/// Files of `files` read whole.
const WHOLE_READS: &[WholeRow] = &[
    ("a", (5, Ok(()), b"hello")),
    ("a", (9, Ok(()), b"hello")),
    ("a", (4, Err(ReadEnd::TooLong), b"")),
    ("a", (0, Err(ReadEnd::TooLong), b"")),
    ("b", (9, Err(ReadEnd::Failed), b"")),
    ("c", (9, Err(ReadEnd::Failed), b"")),
];

/// What `read_whole` answers, and the bytes that it gives.
fn whole<I: Inputs>(
    alloc: Global,
    inputs: &mut I,
    name: &str,
    limit: usize,
) -> (Result<(), ReadEnd>, Vec<u8>) {
    match read_whole(alloc, inputs, name, limit) {
        Ok(text) => (Ok(()), text),
        Err(end) => (Err(end), Vec::new(alloc)),
    }
}

/// Asserts what `read_whole` gives.
fn check_whole<I: Inputs>(rt: &impl Abort, alloc: Global, inputs: &mut I, row: &WholeRow) {
    let (name, want) = row;
    let (answer, bytes) = whole(alloc, inputs, name, want.0);
    check(rt, name, &(want.0, answer, bytes.as_slice()), want);
}

#[test]
fn files_are_read_whole_up_to_the_limit(rt: HostRuntime) {
    for row in WHOLE_READS {
        let mut inputs = MemInputs::new(files(&rt, rt.alloc()));
        check_whole(&rt, rt.alloc(), &mut inputs, row);
        drop(inputs);
    }
}

/// Writes in their order: the piece, the answer and what the sink has then.
const WRITES: &[(&str, Result<usize, Failed>, &[u8])] = &[
    ("wxyz", Ok(3), b"wxy"),
    ("z", Err(Failed), b"wxy"),
    ("abc", Ok(2), b"wxyab"),
    ("c", Err(Failed), b"wxyab"),
    ("", Ok(0), b"wxyab"),
    ("d", Err(Failed), b"wxyab"),
];

/// A sink with room for 5 bytes.
fn sink_of_five(rt: &impl Abort, alloc: Global, piece: usize, fail: &[u64]) -> MemSink
    requires { 0 < piece }
{
    let fail = Vec::from_slice(alloc, fail).expect(rt, "memory");
    MemSink::new(alloc, 5, piece, fail).expect(rt, "memory")
}

/// What writes to a sink give, and what it has after each.
#[test]
fn writes_take_a_front_or_fail(rt: HostRuntime) {
    let mut sink = sink_of_five(&rt, rt.alloc(), 3, &[2]);
    for row in WRITES {
        let answer = sink.write(row.0.as_bytes());
        check(&rt, &row.0, &(answer, sink.bytes()), &(row.1, row.2));
    }
    drop(sink);
}

#[test]
fn whole_writes_end_where_the_room_does(rt: HostRuntime) {
    let mut sink = sink_of_five(&rt, rt.alloc(), 2, &[]);
    let answers = (write_all(&mut sink, b"abc"), write_all(&mut sink, b"def"));
    let want = ((Ok(()), Err(Failed)), b"abcde".as_slice());
    check(&rt, &"two pieces", &(answers, sink.bytes()), &want);
    drop(sink);
    let sure = SureSink::new().write(b"abc");
    check(&rt, &"three bytes of a sure sink", &sure, &Ok(3));
}

/// Reads of the system in their order.
const SYSTEM_READS: &[ReadRow] = &[
    ("there.txt", Ok(3), b"abc"),
    ("missing.txt", Err(Failed), b""),
    ("there.txt", Ok(2), b"de"),
    ("there.txt", Ok(0), b""),
    ("there.txt", Ok(0), b""),
    ("missing.txt", Err(Failed), b""),
];

/// A file of the system read whole.
const SYSTEM_WHOLE: &WholeRow = &("there.txt", (5, Ok(()), b"abcde"));

/// A directory read as a file.
const DIRECTORY_WHOLE: &WholeRow = &(".", (9, Err(ReadEnd::Failed), b""));

#[test]
fn files_of_the_system_are_read_once(rt: HostRuntime) {
    fs::write(&rt, "there.txt", "abcde").expect(&rt, "written");
    let mut pieces = RealInputs::new(&rt, rt.alloc());
    check_reads(&rt, &mut pieces, &mut [0u8; 3], SYSTEM_READS);
    drop(pieces);
    let mut at_once = RealInputs::new(&rt, rt.alloc());
    check_whole(&rt, rt.alloc(), &mut at_once, SYSTEM_WHOLE);
    drop(at_once);
}

/// Two reads of a directory fail and leave their buffer, and so does a third of the whole.
#[test]
fn a_directory_is_a_read_fault(rt: HostRuntime) {
    let mut inputs = RealInputs::new(&rt, rt.alloc());
    let mut buffer = [7u8; 3];
    let answers = (inputs.read(".", &mut buffer), inputs.read(".", &mut buffer));
    let want = ((Err(Failed), Err(Failed)), [7, 7, 7]);
    check(&rt, &"a directory", &(answers, buffer), &want);
    check_whole(&rt, rt.alloc(), &mut inputs, DIRECTORY_WHOLE);
    drop(inputs);
}

/// Takes nothing.
#[derive(Drop)]
struct FullWriter;

impl Write for FullWriter {
    fn write(&mut self, _buf: &[u8]) -> io::Result<usize> {
        Ok(0)
    }

    fn flush(&mut self) -> io::Result<()> {
        Ok(())
    }
}

/// Takes one byte of each piece, and fails where its room is taken.
#[derive(Drop)]
struct ByteWriter {
    bytes: Vec<u8>,
    room: usize,
}

impl Write for ByteWriter {
    fn write(&mut self, buf: &[u8]) -> io::Result<usize> {
        if self.bytes.len() >= self.room {
            return Err(io::Error::other("full"));
        }
        match buf.first() {
            Some(byte) => {
                self.bytes.push(*byte)?;
                Ok(1)
            }
            None => Ok(0),
        }
    }

    fn flush(&mut self) -> io::Result<()> {
        Ok(())
    }
}

/// Rooms of a writer, the answer to five bytes, and the bytes that it takes.
const ROOMS: &[(usize, Result<(), Failed>, &[u8])] = &[
    (9, Ok(()), b"abcde"),
    (3, Err(Failed), b"abc"),
    (0, Err(Failed), b""),
];

#[test]
fn short_writes_are_gone_on_with_until_one_fails(rt: HostRuntime) {
    for row in ROOMS {
        let mut writer = ByteWriter {
            bytes: Vec::new(rt.alloc()),
            room: row.0,
        };
        let answer = write_all(&mut RealSink::new(&mut writer), b"abcde");
        check(
            &rt,
            &"a room",
            &(row.0, answer, writer.bytes.as_slice()),
            row,
        );
    }
}

#[test]
fn writers_of_the_system_are_written(rt: HostRuntime) {
    let mut sink = RealSink::new(fs::create(&rt, "written.txt").expect(&rt, "created"));
    check(&rt, &"five bytes", &write_all(&mut sink, b"abcde"), &Ok(()));
    let written = fs::read(&rt, "written.txt").expect(&rt, "read");
    check(&rt, &"written", &written.as_slice(), &b"abcde".as_slice());
}

#[test]
fn a_write_that_takes_nothing_is_a_fault(rt: HostRuntime) {
    let mut full = RealSink::new(FullWriter);
    let answers = (full.write(b""), full.write(b"a"));
    check(&rt, &"no byte and one", &answers, &(Ok(0), Err(Failed)));
}
