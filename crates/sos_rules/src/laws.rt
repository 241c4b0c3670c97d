//! The laws of the rules.
ghost use Rattle.std.specs.Prelude.{◌≡◌, ◌<◌, ℕ, List, Option};
ghost use Rattle.std.specs.List.{AllByRecursion};
ghost use Rattle.flow_base.specs.declared.bounds.Bounds.{Bounds};
ghost use Rattle.flow_base.specs.declared.fault.Fault.{Fault};
ghost use Rattle.active_config.specs.declared.comp.Comp.TheVariants.{Or};
ghost use Rattle.active_config.specs.Tree.{state_count, comp_of};
ghost use Rattle.actions.specs.declared.event.Event.{Event};
ghost use Rattle.actions.specs.Engines.{IsFaultOf};
ghost use Rattle.actions.specs.Runs.{Moment, EventWithInputs, CanBeGiven};
ghost use Rattle.actions.specs.World.{World, Bare};
ghost use Rattle.actions.specs.Work.{Now};
ghost use Rattle.checked_chart.specs.Chart.{Chart, list_of};
ghost use Rattle.checked_chart.specs.Valid.{IsValid};
ghost use Rattle.checked_chart.specs.declared.parts.ListKind.TheVariants.{Default};
ghost use Rattle.sos_rules.specs.Finds.{Finds};
ghost use Rattle.sos_rules.specs.Memory.{Remembers};
ghost use Rattle.sos_rules.specs.Reactions.{Starts, Reacts, HasOne, HasOneRun, IsRunning};
ghost use Rattle.sos_rules.specs.Rules.{upto};

/// A start has exactly one outcome, and so has an event from any world: a world, with a fault or
/// none. Each send uses depth, each visit of a junction uses a step, and every other rule goes down
/// the tree or along a list.
pub fn one_result()
    ensures start { (c : Chart) (b : Bounds) → IsValid c
        → HasOne (λ (m : Moment). Starts c b m.world m.fault) }
    ensures reaction { (c : Chart) (b : Bounds) (w : World) (e : Event) → IsValid c
        → HasOne (λ (m : Moment). Reacts c b w e m.world m.fault) }
{}

/// Over events and inputs that a running engine can be given there is exactly one run. Each start
/// and each event leave the data that the chart declares, so the inputs of the next event can be
/// set in whatever world the run has come to.
pub fn one_run()
    ensures { (c : Chart) (b : Bounds) (events : List EventWithInputs) → IsValid c
        → AllByRecursion (CanBeGiven c.names) events → HasOneRun c b events }
{}

/// After the start the active states are consistent and the root is active, and an event keeps
/// this; both also where the outcome is a fault.
pub fn stays_consistent()
    ensures start { (c : Chart) (b : Bounds) (w : World) (f : Option Fault) → IsValid c
        → Starts c b w f → IsRunning c w }
    ensures reaction { (c : Chart) (b : Bounds) (w v : World) (e : Event) (f : Option Fault) → IsValid c
        → IsRunning c w → Reacts c b w e v f → IsRunning c v }
{}

/// The datum of an overflow, at which a start or an event ends, is one that the chart declares.
pub fn faults_name_declared_data()
    ensures start { (c : Chart) (b : Bounds) (w : World) (f : Option Fault) → IsValid c
        → Starts c b w f → IsFaultOf c.names f }
    ensures reaction { (c : Chart) (b : Bounds) (w v : World) (e : Event) (f : Option Fault) → IsValid c
        → Reacts c b w e v f → IsFaultOf c.names f }
{}

/// After the start an OR with history remembers its active child, and no other state remembers one.
/// An event keeps this.
pub fn remembers_the_active_child()
    ensures start { (c : Chart) (b : Bounds) (w : World) (f : Option Fault) → IsValid c
        → Starts c b w f → Remembers c w.marks }
    ensures reaction { (c : Chart) (b : Bounds) (w v : World) (e : Event) (f : Option Fault) → IsValid c
        → Remembers c w.marks → Reacts c b w e v f → Remembers c v.marks }
{}

/// A search of the default list of an OR that ends without a fault finds a state or is stopped: it
/// never ends at an empty junction and never finds nothing, whatever the current event is.
pub fn default_finds()
    ensures { (c : Chart) (b : Bounds) (height s : ℕ) (now : Now) (w : World) → IsValid c
        → s < state_count c.tree → comp_of c.tree s ≡ Or
        → Finds ((upto c b height).search (Bare s) (list_of c s Default) now w) }
{}
