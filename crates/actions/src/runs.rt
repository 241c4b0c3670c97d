//! What holds of the runs of every engine.
ghost use Rattle.std.specs.Prelude.{◌≡◌, suc, List, ◌++◌, length, take};
ghost use Rattle.actions.specs.Runs.{EventWithInputs, Moment, Runs};

use crate::engine::Engine;

/// A program has at most one run over a list of events with inputs.
pub fn a_run_has_one_outcome<E: Engine>()
    ensures { (p : E.Program) (events : List EventWithInputs) (moments other : List Moment) →
        Runs (E.Starts p) (E.Reacts p) events moments →
        Runs (E.Starts p) (E.Reacts p) events other → moments ≡ other }
{}

/// The front of a run is the run over the front of its events.
pub fn the_front_of_a_run_is_a_run<E: Engine>()
    ensures { (p : E.Program) (events more : List EventWithInputs) (moments : List Moment) →
        Runs (E.Starts p) (E.Reacts p) (events ++ more) moments →
        Runs (E.Starts p) (E.Reacts p) events (take (suc (length events)) moments) }
{}
