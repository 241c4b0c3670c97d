//! What holds of the resolved charts of chart texts.
ghost use Rattle.std.specs.Prelude.{◌<◌, ◌^◌, length};
ghost use Rattle.chart_tree.specs.Trees as trees;
ghost use Rattle.canonical_text.specs.Terms.{IsChart};
ghost use Rattle.resolved_tree.specs.Promise as promise;
ghost use Rattle.resolved_tree.specs.Resolved.{Resolved};
ghost use Rattle.chart_places.specs.Placed.{placed_states};
ghost use Rattle.chart_places.specs.Scopes.{scopes_of};
ghost use Rattle.chart_scope.specs.Resolution.{IsResolved};

/// The resolved chart of a chart that meets the conditions of chart texts, and has no fault of
/// names, keeps the promise of resolved charts.
pub fn resolved_charts_keep_their_promise()
    ensures { (c : trees.Chart) (r : Resolved) → IsChart c → IsResolved c r → promise.KeepsPromise r }
{}

/// A chart that meets the conditions of chart texts has fewer than 2^32 states, junctions, events
/// and data.
pub fn chart_texts_are_small()
    ensures states { (c : trees.Chart) → IsChart c → length (placed_states c.root) < 2 ^ 32 }
    ensures junctions { (c : trees.Chart) → IsChart c → length (scopes_of c).junctions < 2 ^ 32 }
    ensures events { (c : trees.Chart) → IsChart c → length c.events < 2 ^ 32 }
    ensures vars { (c : trees.Chart) → IsChart c → length c.vars < 2 ^ 32 }
{}
