//! The laws of the rules with counters.
ghost use Rattle.std.specs.Prelude.{◌≡◌, ◌+◌, ◌↔◌, ℕ, List, Option, Ok, min, nat_le};
ghost use Rattle.flow_base.specs.declared.bounds.Bounds.{Bounds};
ghost use Rattle.flow_base.specs.declared.fault.Fault.{Fault};
ghost use Rattle.active_config.specs.Tree.{IsTree};
ghost use Rattle.actions.specs.declared.event.Event.{Event};
ghost use Rattle.actions.specs.declared.expr.Value.TheVariants.{Flag};
ghost use Rattle.actions.specs.Changes.{assigned_in};
ghost use Rattle.actions.specs.Data.{datum};
ghost use Rattle.actions.specs.Runs.{Moment, EventWithInputs};
ghost use Rattle.actions.specs.Values.{value_of};
ghost use Rattle.actions.specs.World.{World};
ghost use Rattle.checked_chart.specs.Chart.{Chart};
ghost use Rattle.sos_rules.specs.Reactions.{Starts, Reacts, RulesRun};
ghost use Rattle.counting_rules.specs.Counters.{Counters, no_counters, whole, one_more};
ghost use Rattle.counting_rules.specs.Reactions.{CountingStarts, CountingReacts, CountingRun};
ghost use Rattle.counting_rules.specs.Numbers.{IsCounter, with_count, has_counted};
ghost use Rattle.counting_rules.specs.Written.{CanBeWritten, write_out};

/// A chart with its counters written out as actions and transitions does, by the rules without
/// counters, what the chart does by the rules with counters, and nothing else: the same worlds,
/// with the same faults, at every bound of depth and steps.
pub fn written_counters_count()
    ensures start { (c : Chart) (k : Counters) (way : ℕ) (b : Bounds) (w : World) (f : Option Fault)
        → CanBeWritten c k way → IsTree c.tree
        → Starts (write_out c k way) b w f ↔ CountingStarts c k b w f }
    ensures reaction { (c : Chart) (k : Counters) (way : ℕ) (b : Bounds) (w v : World) (e : Event)
        (f : Option Fault) → CanBeWritten c k way → IsTree c.tree
        → Reacts (write_out c k way) b w e v f ↔ CountingReacts c k b w e v f }
    ensures run { (c : Chart) (k : Counters) (way : ℕ) (b : Bounds) (events : List EventWithInputs)
        (moments : List Moment) → CanBeWritten c k way → IsTree c.tree
        → RulesRun (write_out c k way) b events moments ↔ CountingRun c k b events moments }
{}

/// Counters are numbers: being set to 0 and counting change the counter alone, to 0 and to one more
/// up to the greatest number of its type, without a fault, and the test of `after(t, E)` is whether
/// it has counted to t.
pub fn counters_are_numbers()
    ensures reset { (v greatest n : ℕ) (w : World) → IsCounter (datum w.vals v) greatest n
        → assigned_in v (whole 0) w ≡ Ok (with_count v 0 w) }
    ensures counted { (v greatest n : ℕ) (w : World) → IsCounter (datum w.vals v) greatest n
        → assigned_in v (one_more v) w ≡ Ok (with_count v (min (n + 1) greatest) w) }
    ensures tested { (v greatest n t : ℕ) (w : World) → IsCounter (datum w.vals v) greatest n
        → value_of w.vals w.marks (has_counted v t) ≡ Ok (Flag (nat_le t n)) }
{}

/// Without counters the rules with counters are the rules.
pub fn no_counters_change_nothing()
    ensures start { (c : Chart) (b : Bounds) (w : World) (f : Option Fault) → IsTree c.tree
        → Starts c b w f ↔ CountingStarts c no_counters b w f }
    ensures reaction { (c : Chart) (b : Bounds) (w v : World) (e : Event) (f : Option Fault)
        → IsTree c.tree → Reacts c b w e v f ↔ CountingReacts c no_counters b w e v f }
    ensures run { (c : Chart) (b : Bounds) (events : List EventWithInputs) (moments : List Moment)
        → IsTree c.tree → RulesRun c b events moments ↔ CountingRun c no_counters b events moments }
{}
