//! A run over a file in memory.
ghost use Rattle.std.specs.Prelude.{◌≡◌, ◌<◌, ◌^◌, length};
ghost use Rattle.actions.specs.Engines.{Fresh};

use actions::Engine;
use event_file::{InputVals, LineReader};
use fixed_point::Scale;
use flow_base::{Bounds, Inputs, MemFile, MemInputs, MemSink, Sink};
use sample_engine::Counter;
use std::process::Abort;
use step_driver::{DriveEnd, drive};

/// Runs the sample chart, whose event `GO` emits `DONE` twice, over the file `events`. Its
/// numbers have that scale.
pub fn run<I: Inputs, O: Sink>(
    rt: &(impl AllocGlobal + Abort),
    scale: Scale,
    inputs: &mut I,
    out: &mut O,
) -> Result<(), DriveEnd> {
    let bounds = Bounds { depth: 1, steps: 2 };
    let mut counter = Counter::make(rt.alloc(), bounds, scale, 2).expect(rt, "memory");
    let end = run_engine(rt, &mut counter, inputs, out);
    drop(counter);
    end
}

/// Runs an engine over the file `events`.
fn run_engine<G: Engine, I: Inputs, O: Sink>(
    rt: &(impl AllocGlobal + Abort),
    engine: &mut G,
    inputs: &mut I,
    out: &mut O,
) -> Result<(), DriveEnd>
    requires fresh { G.stage engine.old ≡ Fresh }
    requires few { length (G.declared (G.program engine.old)).events < 2 ^ 32 }
    requires few_data { length (G.declared (G.program engine.old)).vars < 2 ^ 32 }
{
    let mut lines = LineReader::make(rt.alloc()).expect(rt, "memory");
    let vals = InputVals::make(rt.alloc(), engine.view().names);
    let mut vals = vals.expect(rt, "memory");
    let end = drive(engine, inputs, "events", &mut lines, &mut vals, out);
    drop(vals);
    drop(lines);
    end
}

/// How files and sinks behave: the most that one read gives and one write takes, and which of them
/// fail.
#[derive(Drop)]
pub struct Devices<'a> {
    pub read_size: usize,
    pub failing_reads: &'a [u64],
    pub write_size: usize,
    pub failing_writes: &'a [u64],
}

/// What a run left.
#[derive(Drop)]
pub struct Ran {
    pub answer: Result<(), DriveEnd>,
    pub inputs: MemInputs,
    pub out: MemSink,
}

/// Runs the sample chart over a text, with numbers of 8 bits of which 4 are fraction bits.
pub fn run_text(rt: &(impl AllocGlobal + Abort), text: &[u8], devices: &Devices<'_>) -> Ran
    requires reads { 0 < devices.now.read_size }
    requires writes { 0 < devices.now.write_size }
{
    let scale = Scale::make(true, 8, 4).expect(rt, "a scale");
    let mut inputs = file(rt, text, devices);
    let mut out = sink(rt, devices);
    let answer = run(rt, scale, &mut inputs, &mut out);
    Ran {
        answer,
        inputs,
        out,
    }
}

/// The file `events`.
fn file(rt: &(impl AllocGlobal + Abort), text: &[u8], devices: &Devices<'_>) -> MemInputs
    requires { 0 < devices.now.read_size }
{
    let name = String::from_str(rt.alloc(), "events").expect(rt, "memory");
    let bytes = Vec::from_slice(rt.alloc(), text).expect(rt, "memory");
    let fail = Vec::from_slice(rt.alloc(), devices.failing_reads).expect(rt, "memory");
    let files = [MemFile::new(name, bytes, devices.read_size, fail)];
    MemInputs::new(Vec::from_array(rt.alloc(), files).expect(rt, "memory"))
}

/// A sink of 1000 bytes.
fn sink(rt: &(impl AllocGlobal + Abort), devices: &Devices<'_>) -> MemSink
    requires { 0 < devices.now.write_size }
{
    let fail = Vec::from_slice(rt.alloc(), devices.failing_writes).expect(rt, "memory");
    MemSink::new(rt.alloc(), 1000, devices.write_size, fail).expect(rt, "memory")
}
