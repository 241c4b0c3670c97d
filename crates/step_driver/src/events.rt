//! The start, and the event that a line says.
ghost use Rattle.std.specs.Prelude.{◌≡◌, ◌≢◌, ◌<◌, ◌≤◌, ◌^◌, ◌+◌, length, false, IsTrue, Err, OnOk, None};
ghost use Rattle.actions.specs.Engines.{Fresh, Running, CanReactTo, IsFaultOf, fault_of};
ghost use Rattle.actions.specs.declared.event.Event.TheVariants.{Start as AtStart};
ghost use Rattle.event_file.specs.EventLines.{event_of_line};
ghost use Rattle.event_file.specs.LineValues.{IsMadeFor};
ghost use Rattle.trace_text.specs.Pieces.{Puts};
ghost use Rattle.trace_text.specs.Trace.{IsEventOf, trace_line};
ghost use Rattle.actions.specs.Runs.{AreInputValues, AreSet, ReactsWithInputs};
ghost use Rattle.step_driver.specs.Causes as causes;
ghost use Rattle.step_driver.specs.Parts as spec;

use crate::driver::DriveEnd;
use actions::{Engine, Event, Halt};
use event_file::{FILE_EVENT_LIMIT, InputVals, event_line};
use flow_base::Sink;
use trace_text::{Pieces, put_trace};

/// Starts the engine, and puts the first line of the trace.
pub(crate) fn run_start<G: Engine, O: Sink>(
    engine: &mut G,
    pieces: &mut Pieces,
    out: &mut O,
) -> Result<(), DriveEnd>
    requires fresh { G.stage engine.old ≡ Fresh }
    requires few { length (G.declared (G.program engine.old)).vars < 2 ^ 32 }
    requires usable { pieces.old.failed ≡ false }
    ensures done { spec.Done (G.Starts (G.program engine.old))
        (λ w f. trace_line (G.tree (G.program engine.old)) (G.declared (G.program engine.old)) w 0 AtStart f)
        0 (G.world engine.new)
        (Puts (O.wrote out.old) (O.wrote out.new) (O.faults out.old) (O.faults out.new) pieces.old pieces.new)
        result }
    ensures failed { pieces.new.failed ≡ causes.is_write result }
    ensures program { G.program engine.new ≡ G.program engine.old }
    ensures stage { OnOk result (G.stage engine.new ≡ Running) }
    ensures reads { causes.is_read result ≡ false }
    ensures memory { IsTrue G.never_wants_memory → result ≢ Err DriveEnd.Memory }
{
    let end = engine.start();
    put_end::<G, O>(engine, 0, Event::Start, end, pieces, out)
}

/// Takes a line and, where it is an event, puts the line of that step. It answers the index of the
/// last step.
pub(crate) fn run_line<G: Engine, O: Sink>(
    engine: &mut G,
    line: &[u8],
    number: u64,
    index: u64,
    vals: &mut InputVals,
    pieces: &mut Pieces,
    out: &mut O,
) -> Result<u64, DriveEnd>
    requires running { G.stage engine.old ≡ Running }
    requires few { length (G.declared (G.program engine.old)).events < 2 ^ 32 }
    requires few_data { length (G.declared (G.program engine.old)).vars < 2 ^ 32 }
    requires vals { IsMadeFor (G.declared (G.program engine.old)) vals.old }
    requires index { index ≤ FILE_EVENT_LIMIT }
    requires usable { pieces.old.failed ≡ false }
    ensures taken { spec.LineTaken (G.Reacts (G.program engine.old))
        (G.tree (G.program engine.old)) (G.declared (G.program engine.old)) number index
        (event_of_line (G.declared (G.program engine.old)) line.now)
        (G.world engine.old) (G.world engine.new)
        (Puts (O.wrote out.old) (O.wrote out.new) (O.faults out.old) (O.faults out.new) pieces.old pieces.new)
        result }
    ensures failed { pieces.new.failed ≡ causes.is_write result }
    ensures program { G.program engine.new ≡ G.program engine.old }
    ensures stage { OnOk result (G.stage engine.new ≡ Running) }
    ensures vals { IsMadeFor (G.declared (G.program engine.old)) vals.new }
    ensures reads { causes.is_read result ≡ false }
    ensures memory { IsTrue G.never_wants_memory → result ≢ Err DriveEnd.Memory }
{
    match event_line(engine.view().names, line, vals) {
        Err(fault) => Err(DriveEnd::Line(number, fault)),
        Ok(None) => Ok(index),
        Ok(Some(event)) => {
            if index >= FILE_EVENT_LIMIT {
                return Err(DriveEnd::TooManyLines);
            }
            run_event::<G, O>(engine, index + 1, event, vals, pieces, out)?;
            Ok(index + 1)
        }
    }
}

/// Sets the inputs, processes the event and puts its line.
fn run_event<G: Engine, O: Sink>(
    engine: &mut G,
    index: u64,
    event: Event,
    vals: &InputVals,
    pieces: &mut Pieces,
    out: &mut O,
) -> Result<(), DriveEnd>
    requires running { G.stage engine.old ≡ Running }
    requires few { length (G.declared (G.program engine.old)).vars < 2 ^ 32 }
    requires few_values { length vals.now.values < 2 ^ 32 }
    requires event { CanReactTo (G.declared (G.program engine.old)) event }
    requires vals { AreInputValues (G.declared (G.program engine.old)) 0 vals.now.values }
    requires usable { pieces.old.failed ≡ false }
    ensures done { spec.Done
        (ReactsWithInputs (G.Reacts (G.program engine.old)) (G.world engine.old) (record { event = event; inputs = vals.now.values }))
        (λ w f. trace_line (G.tree (G.program engine.old)) (G.declared (G.program engine.old)) w index event f)
        index (G.world engine.new)
        (Puts (O.wrote out.old) (O.wrote out.new) (O.faults out.old) (O.faults out.new) pieces.old pieces.new)
        result }
    ensures failed { pieces.new.failed ≡ causes.is_write result }
    ensures program { G.program engine.new ≡ G.program engine.old }
    ensures stage { OnOk result (G.stage engine.new ≡ Running) }
    ensures reads { causes.is_read result ≡ false }
    ensures memory { IsTrue G.never_wants_memory → result ≢ Err DriveEnd.Memory }
{
    set_inputs(engine, vals);
    let end = engine.react(event);
    put_end::<G, O>(engine, index, event, end, pieces, out)
}

/// Gives each input the value that the line names for it. It takes no memory.
#[inline(always)]
pub fn set_inputs<G: Engine>(engine: &mut G, vals: &InputVals)
    requires running { G.stage engine.old ≡ Running }
    requires few { length vals.now.values < 2 ^ 32 }
    requires vals { AreInputValues (G.declared (G.program engine.old)) 0 vals.now.values }
    ensures set { AreSet 0 vals.now.values (G.world engine.old) (G.world engine.new) }
    ensures program { G.program engine.new ≡ G.program engine.old }
    ensures stage { G.stage engine.new ≡ G.stage engine.old }
{
    for v in 0..vals.len() as u32 {
        if let Some(value) = vals.get(v) {
            engine.set_input(v, value);
        }
    }
}

/// Puts the line for how a call of the engine ended.
#[inline(always)]
fn put_end<G: Engine, O: Sink>(
    engine: &G,
    index: u64,
    event: Event,
    end: Result<(), Halt>,
    pieces: &mut Pieces,
    out: &mut O,
) -> Result<(), DriveEnd>
    requires few { length (G.declared (G.program engine.now)).vars < 2 ^ 32 }
    requires event { IsEventOf (G.declared (G.program engine.now)) event }
    requires fault { IsFaultOf (G.declared (G.program engine.now)) (fault_of end) }
    requires usable { pieces.old.failed ≡ false }
    ensures put { spec.EndPut index end
        (trace_line (G.tree (G.program engine.now)) (G.declared (G.program engine.now)) (G.world engine.now) index event)
        (Puts (O.wrote out.old) (O.wrote out.new) (O.faults out.old) (O.faults out.new) pieces.old pieces.new)
        result }
    ensures failed { pieces.new.failed ≡ causes.is_write result }
    ensures reads { causes.is_read result ≡ false }
{
    let fault = match end {
        Ok(()) => None,
        Err(Halt::Fault(fault)) => Some(fault),
        Err(Halt::Memory) => return Err(DriveEnd::Memory),
    };
    put_trace(index, event, &engine.view(), fault, pieces, out);
    if pieces.has_failed() {
        return Err(DriveEnd::Write);
    }
    match fault {
        None => Ok(()),
        Some(fault) => Err(DriveEnd::Fault(index, fault)),
    }
}
