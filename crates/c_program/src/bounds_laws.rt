//! What the bounds of a chart are worth.
ghost use Rattle.std.specs.Prelude.{◌≡◌, List, Some, None};
ghost use Rattle.std.specs.List.{AllByRecursion};
ghost use Rattle.flow_base.specs.declared.bounds.Bounds.{Bounds};
ghost use Rattle.actions.specs.Names.{Names};
ghost use Rattle.actions.specs.Runs.{CanBeGiven, EventWithInputs, Moment};
ghost use Rattle.checked_chart.specs.Chart.{Chart};
ghost use Rattle.sos_rules.specs.Reactions.{RulesRun};
ghost use Rattle.bound_prove.specs.declared.need.Need.{Need};
ghost use Rattle.bound_prove.specs.Roots.{NoOverrun};
ghost use Rattle.bound_prove.specs.Searches.{IsNeedOf};
ghost use Rattle.c_program.specs.Bounds.{IsBoundsFor};

/// Where no bounds are asked for and the chart has bounds that no event overruns, no run of the
/// chart under the bounds of its C is ended by a bound, whatever events it is given; and no run of
/// the chart with other data, such as with other first values of its inputs, is.
pub fn bounds_of_need_are_not_overrun()
    ensures chart { (c : Chart) (n : Need) (bounds : Bounds) (events : List EventWithInputs)
        (moments : List Moment) → IsNeedOf c (Some n) → IsBoundsFor None c bounds
        → AllByRecursion (CanBeGiven c.names) events → RulesRun c bounds events moments
        → AllByRecursion (λ (m : Moment). NoOverrun m.fault) moments }
    ensures other_values { (c : Chart) (names : Names) (n : Need) (bounds : Bounds)
        (events : List EventWithInputs) (moments : List Moment) → names.events ≡ c.names.events
        → IsNeedOf c (Some n) → IsBoundsFor None c bounds
        → AllByRecursion (CanBeGiven names) events
        → RulesRun (record c { names = names }) bounds events moments
        → AllByRecursion (λ (m : Moment). NoOverrun m.fault) moments }
{}
