//! What holds of nets by the rules.
ghost use Rattle.std.specs.Prelude.{List};
ghost use Rattle.flow_base.specs.declared.bounds.Bounds.{Bounds};
ghost use Rattle.net_text.specs.declared.route.Route.{Route};
ghost use Rattle.chart_net.specs.NetLaws.{NetLaw};
ghost use Rattle.chart_net.specs.NetRuns.{NetMoment, NetRuns, NetStep};
ghost use Rattle.commands.specs.NetCharts.{LoadedChart};
ghost use Rattle.commands.specs.NetRules.{net_by_rules};

/// Up to the first fault, each chart of a net by the rules, whose run `net` traces, runs on the
/// events that it took, and each route gives what was sent on it, in order and once each.
///
/// This project's choice.
pub fn nets_by_rules_keep_the_law_of_nets()
    ensures { (bounds : Bounds) (loaded : List LoadedChart) (routes : List Route)
        (schedule : List NetStep) (moments : List NetMoment)
        → NetRuns (net_by_rules bounds loaded routes) schedule moments
        → NetLaw (net_by_rules bounds loaded routes) moments }
{}
