//! What a closed certificate means for runs.
ghost use Rattle.std.specs.Prelude.{List};
ghost use Rattle.std.specs.List.{AllByRecursion};
ghost use Rattle.flow_base.specs.declared.bounds.Bounds.{Bounds};
ghost use Rattle.actions.specs.Exprs.{Expr};
ghost use Rattle.actions.specs.Runs.{EventWithInputs, Moment, CanBeGiven};
ghost use Rattle.checked_chart.specs.Chart.{Chart};
ghost use Rattle.sos_rules.specs.Reactions.{RulesRun};
ghost use Rattle.range_rules.specs.declared.cert.Certificate.{Certificate};
ghost use Rattle.range_rules.specs.Closed.{IsClosed};
ghost use Rattle.range_rules.specs.Kept.{KeepsRanges, Proves, IsTrueAt};

/// Where a certificate is closed, each datum is in its span at each moment of each run, for all
/// events, inputs and bounds; no run has a fault `zero` or `overflow` but those that there may be;
/// and each world without a fault is one of those between two events.
pub fn ranges_are_kept()
    ensures { (c : Chart) (cert : Certificate) (b : Bounds) (events : List EventWithInputs)
        (moments : List Moment) → IsClosed c cert → AllByRecursion (CanBeGiven c.names) events
        → RulesRun c b events moments → AllByRecursion (KeepsRanges c cert) moments }
{}

/// A claim that a closed certificate proves is true after the start and after each event of each
/// run, for all events, inputs and bounds, but for one that ended in a fault.
pub fn claims_are_kept()
    ensures { (c : Chart) (cert : Certificate) (claim : Expr) (b : Bounds)
        (events : List EventWithInputs) (moments : List Moment) → IsClosed c cert
        → Proves c cert claim
        → AllByRecursion (CanBeGiven c.names) events → RulesRun c b events moments
        → AllByRecursion (IsTrueAt claim) moments }
{}
