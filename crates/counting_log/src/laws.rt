//! The laws of what counters count.
ghost use Rattle.std.specs.Prelude.{◌≢◌, ℕ, List};
ghost use Rattle.std.specs.List.{AllByRecursion};
ghost use Rattle.flow_base.specs.declared.bounds.Bounds.{Bounds};
ghost use Rattle.actions.specs.declared.event.Event.{Event};
ghost use Rattle.actions.specs.Data.{datum, initial};
ghost use Rattle.actions.specs.Runs.{Moment, EventWithInputs, CanBeGiven};
ghost use Rattle.actions.specs.World.{World};
ghost use Rattle.checked_chart.specs.Chart.{Chart};
ghost use Rattle.counting_rules.specs.Counters.{Counters};
ghost use Rattle.counting_rules.specs.Numbers.{IsCounter};
ghost use Rattle.counting_rules.specs.Reactions.{counting_start_upto, counting_react_upto, CountingRun};
ghost use Rattle.counting_rules.specs.Rules.{counting_upto};
ghost use Rattle.counting_log.specs.Assigned.{OnlyChart};
ghost use Rattle.counting_log.specs.Log.{Note};
ghost use Rattle.counting_log.specs.Reactions.{logged_start_upto, logged_react_upto};
ghost use Rattle.counting_log.specs.Rules.{logged_upto};
ghost use Rattle.counting_log.specs.Runs.{IsNoInput, LoggedRun};
ghost use Rattle.counting_log.specs.Tells.{Tells, Matches};
ghost use Rattle.counting_log.specs.Times.{IsCounterOf, IsNumber, IsCount};

/// At the end of every piece of work a counter is the number of times that the chart was processed
/// with its event since its state was last entered, or the greatest of its type where that is less,
/// unless a statement of the chart assigned to it. The rules with a log, by which this is said, run
/// as those without.
pub fn a_counter_is_a_number_of_times()
    ensures pieces { (c : Chart) (k : Counters) (b : Bounds) (v s e greatest n : ℕ)
        → IsCounterOf k v s e
        → Matches (IsNumber v s e greatest) (logged_upto c k b n) (counting_upto c k b n) }
    ensures start { (c : Chart) (k : Counters) (b : Bounds) (v s e greatest n : ℕ)
        → IsCounterOf k v s e → IsCounter (datum (initial c.names) v) greatest 0
        → Tells (IsNumber v s e greatest) (logged_start_upto c k b n) (counting_start_upto c k b n) }
    ensures reaction { (c : Chart) (k : Counters) (b : Bounds) (v s e greatest n : ℕ) (w : World)
        (log : List Note) (event : Event)
        → IsCounterOf k v s e → IsNumber v s e greatest w log
        → Tells (IsNumber v s e greatest) (logged_react_upto c k b w log event n)
        (counting_react_upto c k b w event n) }
{}

/// Where no statement of the chart assigns to the counter, it is exactly that number after the
/// start and after each reaction; and where it is no input either, at each moment of every run over
/// events with inputs that can be given, up to the first fault.
pub fn counters_without_assignments_are_exact()
    ensures start { (c : Chart) (k : Counters) (b : Bounds) (v s e greatest n : ℕ)
        → IsCounterOf k v s e → OnlyChart (λ u. u ≢ v) c
        → IsCounter (datum (initial c.names) v) greatest 0
        → Tells (IsCount v s e greatest) (logged_start_upto c k b n) (counting_start_upto c k b n) }
    ensures reaction { (c : Chart) (k : Counters) (b : Bounds) (v s e greatest n : ℕ) (w : World)
        (log : List Note) (event : Event)
        → IsCounterOf k v s e → OnlyChart (λ u. u ≢ v) c → IsCount v s e greatest w log
        → Tells (IsCount v s e greatest) (logged_react_upto c k b w log event n)
        (counting_react_upto c k b w event n) }
    ensures run { (c : Chart) (k : Counters) (b : Bounds) (v s e greatest : ℕ)
        (events : List EventWithInputs) (moments : List Moment)
        → IsCounterOf k v s e → OnlyChart (λ u. u ≢ v) c
        → IsCounter (datum (initial c.names) v) greatest 0 → IsNoInput c.names v
        → AllByRecursion (CanBeGiven c.names) events → CountingRun c k b events moments
        → LoggedRun c k b (IsCount v s e greatest) events moments }
{}
