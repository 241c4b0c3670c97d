//! The engine of `sample_engine` by itself: that calls succeed, and runs by hand.
ghost use Rattle.std.specs.Prelude.{◌≡◌, ◌<◌, true, length};
ghost use Rattle.fixed_point.specs.declared.scale.Scale.{Scale};
ghost use Rattle.fixed_point.specs.Scales.{HasParts};
ghost use Rattle.actions.specs.Engines.{Fresh, CanReactTo, IsInputValue};
ghost use Rattle.sample_engine.specs.Chart.{chart_names};

use crate::checks::check;
use actions::{Engine, Event, Halt, Value};
use fixed_point::{Num, Scale};
use flow_base::{Bounds, Fault, Memory};
use sample_engine::{BY, COUNT, Counter, DONE, GO};
use std::alloc::Global;
use std::process::Abort;

/// Starts an engine, gives an input the value, and has it react to an event that number of times.
fn run<E: Engine>(
    engine: &mut E,
    input: u32,
    value: Value,
    event: Event,
    times: u32,
) -> Result<(), Halt>
    requires fresh { E.stage engine.old ≡ Fresh }
    requires value { IsInputValue (E.declared (E.program engine.old)) input value }
    requires event { CanReactTo (E.declared (E.program engine.old)) event }
    ensures { E.program engine.new ≡ E.program engine.old }
{
    engine.start()?;
    engine.set_input(input, value);
    for _time in 0..times {
        engine.react(event)?;
    }
    Ok(())
}

/// The value of a datum, as an engine shows it.
fn shown<E: Engine>(engine: &E, v: u32) -> Value
    requires { v < length (E.declared (E.program engine.now)).vars }
{
    engine.view().vals.get(v)
}

/// Whether the root is active, as an engine shows it.
fn is_root_active<E: Engine>(engine: &E) -> bool {
    let view = engine.view();
    // Only the proof reads the number of states: there is a root.
    let _states = view.shape.len();
    view.marks.on(0)
}

/// Whole numbers of 8 bits.
fn int8(rt: &impl Abort) -> Scale
    ensures { HasParts true 8 0 result }
{
    Scale::make(true, 8, 0).expect(rt, "a scale")
}

/// The input event or a tick.
fn event(goes: bool) -> Event
    ensures { (scale : Scale) → CanReactTo (chart_names scale) result }
{
    if goes { Event::Named(GO) } else { Event::Tick }
}

/// The whole number `mantissa`, as a value.
fn number(mantissa: i128) -> Value
    ensures { result ≡ Value.Number (record { mantissa = mantissa; frac = 0 }) }
{
    Value::Number(Num { mantissa, frac: 0 })
}

/// A counter whose input is 100, after its events, and how its run ended.
fn counter_run(
    alloc: Global,
    scale: Scale,
    rounds: u32,
    goes: bool,
    times: u32,
) -> Result<(Counter, Result<(), Halt>), Memory>
    requires { HasParts true 8 0 scale }
{
    let bounds = Bounds { depth: 1, steps: 2 };
    let mut counter = Counter::make(alloc, bounds, scale, rounds)?;
    let end = run(&mut counter, BY, number(100), event(goes), times);
    Ok((counter, end))
}

/// The rounds of the program, whether the event is the input event, how often it comes, the end,
/// and what is shown then: the count and the outputs.
const RUNS: &[(u32, bool, u32, Result<(), Halt>, i128, &[u32])] = &[
    (2, false, 0, Ok(()), 0, &[]),
    (2, false, 1, Ok(()), 100, &[]),
    (
        2,
        false,
        2,
        Err(Halt::Fault(Fault::Overflow(COUNT))),
        100,
        &[],
    ),
    (1, true, 3, Ok(()), 0, &[DONE]),
    (2, true, 1, Ok(()), 0, &[DONE, DONE]),
    (3, true, 1, Err(Halt::Fault(Fault::Steps)), 0, &[DONE, DONE]),
];

#[test]
fn a_counter_runs(rt: HostRuntime) {
    for &(rounds, goes, times, end, count, outputs) in RUNS {
        let ran = counter_run(rt.alloc(), int8(&rt), rounds, goes, times);
        let (counter, found) = ran.expect(&rt, "memory");
        check(&rt, &(rounds, goes, times), &found, &end);
        compare(&rt, &counter, count, outputs);
        drop(counter);
    }
}

/// Asserts that the counter shows that count, an input of 100, those outputs and an active root.
fn compare(rt: &impl Abort, counter: &Counter, count: i128, outputs: &[u32]) {
    let numbers = (shown(counter, COUNT), shown(counter, BY));
    let found = (numbers, counter.view().outputs, is_root_active(counter));
    let want = ((number(count), number(100)), outputs, true);
    check(rt, &"numbers, outputs and root", &found, &want);
}
