//! Files, words and charts that the tests share.
ghost use Rattle.std.specs.Prelude.{◌<◌};

use flow_base::{MemFile, MemInputs, MemSink, Status};
use flow_program::chart_main;
use std::process::Abort;

/// The chart of the lamp.
pub const LAMP: &str =
    "chart Lamp or { event input GO; default -> Off; state Off { outer GO -> On; } state On { outer GO -> Off; } }";

/// Code of the lamp.
pub const CODE: &str = "\
    flowcode 1\n\
    states 3\n\
    s - or Lamp\n\
    s 0 leaf Off\n\
    s 0 leaf On\n\
    data 0\n\
    events 1\n\
    e input GO\n\
    procs 2 0 1\n\
    p 3\n\
    mark 0\n\
    mark 1\n\
    ret 0\n\
    p 9\n\
    unless 7 event 0\n\
    unless 3 on 1\n\
    clear 1\n\
    mark 2\n\
    ret 0\n\
    unless 2 on 2\n\
    clear 2\n\
    mark 1\n\
    ret 0\n\
    end\n";

/// A file that is read in pieces; the listed reads of it fail.
pub fn file(
    rt: &(impl AllocGlobal + Abort),
    name: &str,
    text: &str,
    piece: usize,
    fail: &[u64],
) -> MemFile
    requires { 0 < piece }
{
    let name = String::from_str(rt.alloc(), name).expect(rt, "memory");
    let bytes = Vec::from_slice(rt.alloc(), text.as_bytes()).expect(rt, "memory");
    MemFile::new(name, bytes, piece, numbers(rt, fail))
}

/// The numbers of reads or writes.
fn numbers(rt: &(impl AllocGlobal + Abort), numbers: &[u64]) -> Vec<u64> {
    Vec::from_slice(rt.alloc(), numbers).expect(rt, "memory")
}

/// A chart or code in the file `c` and events in the file `e`; the listed reads of `e` fail.
fn files(rt: &(impl AllocGlobal + Abort), text: &str, events: &str, fail: &[u64]) -> MemInputs {
    let files = [file(rt, "c", text, 7, &[]), file(rt, "e", events, 3, fail)];
    MemInputs::new(Vec::from_array(rt.alloc(), files).expect(rt, "memory"))
}

/// A sink that takes pieces of a size; the listed writes to it fail.
pub fn sink(rt: &(impl AllocGlobal + Abort), piece: usize, fail: &[u64]) -> MemSink
    requires { 0 < piece }
{
    MemSink::new(rt.alloc(), 16_384, piece, numbers(rt, fail)).expect(rt, "memory")
}

/// The words of a line, which a space separates.
pub fn words(rt: &(impl AllocGlobal + Abort), line: &str) -> Vec<String> {
    let mut words = Vec::new(rt.alloc());
    for word in line.split(' ') {
        let word = String::from_str(rt.alloc(), word).expect(rt, "memory");
        words.push(word).expect(rt, "memory");
    }
    words
}

/// What a run of the program left.
#[derive(Drop)]
pub struct Ran {
    pub status: Status,
    pub out: MemSink,
    pub err: MemSink,
}

/// Status, output and line of a run.
pub type WantedAnswer<'a> = (Status, &'a str, &'a str);

/// Which reads of the event file, writes of the output and writes of the line fail.
pub type Fails<'a> = (&'a [u64], &'a [u64], &'a [u64]);

/// No read and no write fails.
pub const SURE: Fails<'_> = (&[], &[], &[]);

/// Runs the program with the words of a line over a text and events. Its output takes pieces of a
/// size.
pub fn run(
    rt: &(impl AllocGlobal + Abort),
    line: &str,
    text: &str,
    events: &str,
    piece: usize,
    fails: Fails<'_>,
) -> Ran
    requires { 0 < piece }
{
    let words = words(rt, line);
    let mut inputs = files(rt, text, events, fails.0);
    let mut out = sink(rt, piece, fails.1);
    let mut err = sink(rt, 4096, fails.2);
    let status = chart_main(rt.alloc(), &words, &mut inputs, &mut out, &mut err);
    Ran { status, out, err }
}

/// Runs the program so, and compares what it left.
pub fn check_run(
    rt: &(impl AllocGlobal + Abort),
    line: &str,
    text: &str,
    events: &str,
    piece: usize,
    fails: Fails<'_>,
    want: WantedAnswer<'_>,
)
    requires { 0 < piece }
{
    let ran = run(rt, line, text, events, piece, fails);
    compare(
        rt,
        line,
        events,
        (ran.status, ran.out.bytes(), ran.err.bytes()),
        want,
    );
}

/// Compares what a run with these words over that event file left.
pub fn compare(
    rt: &impl Abort,
    line: &str,
    events: &str,
    got: (Status, &[u8], &[u8]),
    want: WantedAnswer<'_>,
) {
    let want = (want.0, want.1.as_bytes(), want.2.as_bytes());
    assert!(rt; got == want, "{line}: {events:?}: {got:?}, not {want:?}");
}
