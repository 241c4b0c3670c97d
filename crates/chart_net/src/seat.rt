//! A chart of a net, with what its steps need.
ghost use Rattle.std.specs.Prelude.{◌≡◌, ◌≢◌, ◌<◌, ◌^◌, length, None, Some, Err, IsTrue};
ghost use Rattle.actions.specs.Engines.{Fresh, IsInputEvent, Running};
ghost use Rattle.actions.specs.Runs.{AreSet, CanBeGiven};
ghost use Rattle.actions.specs.declared.event.Event.TheVariants.{Named};
ghost use Rattle.event_file.specs.EventLines.{SaysWhatCanBeGiven, answer_of, event_of_line};
ghost use Rattle.event_file.specs.EventLines.{inputs_of};
ghost use Rattle.event_file.specs.LineValues.{IsMadeFor};
ghost use Rattle.chart_net.specs.NetRuns.{inputs_of_item};
ghost use Rattle.chart_net.specs.Routes.{CanTake};
ghost use Rattle.chart_net.specs.Seats.{IsSeat, SeatMoves, names_at};

use actions::{Engine, Event, Halt, Value};
use event_file::{FILE_EVENT_LIMIT, InputVals, LineFault, event_line};
use flow_base::Text;
use step_driver::set_inputs;

/// A chart of a net.
#[derive(Drop)]
pub(crate) struct Seat<G> {
    /// Its name.
    pub name: Text,
    /// What runs it.
    pub engine: G,
    /// The values that a step gives its inputs.
    pub vals: InputVals,
    /// How many events it took.
    pub index: u64,
}

impl<G: Engine> Seat<G> {
    /// Starts the chart.
    pub(crate) fn start(&mut self) -> Result<(), Halt>
        requires fresh { G.stage self.old.engine ≡ Fresh }
        ensures moves { SeatMoves G.Engine self.old self.new None result }
        ensures memory { IsTrue G.never_wants_memory → result ≢ Err Halt.Memory }
    {
        self.engine.start()
    }

    /// Reads an event line for the chart, whose values are kept, whatever was there before.
    pub(crate) fn read(&mut self, text: &[u8]) -> Result<Option<Event>, LineFault>
        requires { IsSeat G.Engine self.old }
        ensures answer { result ≡ answer_of (event_of_line (names_at G.Engine self.old) text.now) }
        ensures vals { self.new.vals.values
            ≡ inputs_of (names_at G.Engine self.old) (event_of_line (names_at G.Engine self.old) text.now) }
        ensures made { IsMadeFor (names_at G.Engine self.old) self.new.vals }
        ensures given { SaysWhatCanBeGiven (names_at G.Engine self.old)
            (event_of_line (names_at G.Engine self.old) text.now) }
        ensures others { (self.new.name ≡ self.old.name) × (self.new.engine ≡ self.old.engine)
            × (self.new.index ≡ self.old.index) }
    {
        event_line(self.engine.view().names, text, &mut self.vals)
    }

    /// Gives the chart an event, with the values of the step.
    pub(crate) fn give(&mut self, event: Event) -> Result<(), Halt>
        requires running { G.stage self.old.engine ≡ Running }
        requires few { length self.old.vals.values < 2 ^ 32 }
        requires given { CanBeGiven (names_at G.Engine self.old)
            (record { event = event; inputs = self.old.vals.values }) }
        requires index { self.old.index < FILE_EVENT_LIMIT }
        ensures moves { SeatMoves G.Engine self.old self.new
            (Some (record { event = event; inputs = self.old.vals.values })) result }
        ensures memory { IsTrue G.never_wants_memory → result ≢ Err Halt.Memory }
    {
        set_inputs(&mut self.engine, &self.vals);
        self.index += 1;
        self.engine.react(event)
    }

    /// Gives the chart an event for an item, whose value it is given for that datum.
    pub(crate) fn take(
        &mut self,
        event: u32,
        target: Option<u32>,
        item: Option<Value>,
    ) -> Result<(), Halt>
        requires running { G.stage self.old.engine ≡ Running }
        requires event { IsInputEvent (names_at G.Engine self.old) event }
        requires item { CanTake (names_at G.Engine self.old) target item }
        requires index { self.old.index < FILE_EVENT_LIMIT }
        ensures moves { SeatMoves G.Engine self.old self.new
            (Some (record {
              event = Named event;
              inputs =
                  inputs_of_item (names_at G.Engine self.old) target item;
            })) result }
        ensures memory { IsTrue G.never_wants_memory → result ≢ Err Halt.Memory }
    {
        set_item(&mut self.engine, target, item);
        self.index += 1;
        self.engine.react(Event::Named(event))
    }
}

/// Gives a datum the value of an item, where there is a datum and the item has a value.
fn set_item<G: Engine>(engine: &mut G, target: Option<u32>, item: Option<Value>)
    requires running { G.stage engine.old ≡ Running }
    requires item { CanTake (G.declared (G.program engine.old)) target item }
    ensures set { AreSet 0 (inputs_of_item (G.declared (G.program engine.old)) target item)
        (G.world engine.old) (G.world engine.new) }
    ensures program { G.program engine.new ≡ G.program engine.old }
    ensures stage { G.stage engine.new ≡ G.stage engine.old }
{
    if let Some(v) = target {
        if let Some(value) = item {
            engine.set_input(v, value);
        }
    }
}
