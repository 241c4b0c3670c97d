//! A net of engines of one type.
ghost use Rattle.std.specs.Prelude.{◌≡◌, ◌<◌, ◌^◌, [], ◌∷◌, ◌++◌, length, false, OnOk, OnErr};
ghost use Rattle.std.specs.List.{list_any};
ghost use Rattle.std.specs.Str.{bytes_eq};
ghost use Rattle.actions.specs.Engines.{Fresh};
ghost use Rattle.chart_net.specs.NetParts.{IsNet, charts_of, net_shown, routes_of};
ghost use Rattle.chart_net.specs.Routes.{IsRoute};
ghost use Rattle.net_text.specs.declared.limits.TheConstants.{CHART_LIMIT, ROUTE_LIMIT};

use crate::ring::Ring;
use crate::seat::Seat;
use actions::Engine;
use event_file::InputVals;
use flow_base::{Memory, Text};
use net_text::Route;
use std::alloc::Global;

/// Charts that engines of one type run, and routes between them, each with what waits on it.
///
/// This project's choice.
#[derive(Drop)]
pub struct Net<G> {
    pub(crate) seats: Vec<Seat<G>>,
    pub(crate) routes: Vec<Route>,
    pub(crate) rings: Vec<Ring>,
    alloc: Global,
}

impl<G: Engine> Net<G> {
    /// No charts and no routes.
    pub fn new(alloc: Global) -> Net<G>
        ensures net { IsNet G.Engine result }
        ensures charts { charts_of G.Engine result ≡ [] }
        ensures routes { routes_of result ≡ [] }
    {
        Net {
            seats: Vec::new(alloc),
            routes: Vec::new(alloc),
            rings: Vec::new(alloc),
            alloc,
        }
    }

    /// How many charts there are.
    pub(crate) fn count(&self) -> usize
        ensures { result ≡ length self.now.seats.items }
    {
        self.seats.len()
    }

    /// Adds a route to a net that isn't driven yet, with room for as many items as the route may
    /// hold, which is all the memory that it takes. On an error the net is unchanged.
    pub fn add_route(&mut self, route: Route) -> Result<(), Memory>
        requires net { IsNet G.Engine self.old }
        requires few { length (routes_of self.old) < ROUTE_LIMIT }
        requires route { IsRoute (net_shown G.Engine self.old) route }
        ensures net { IsNet G.Engine self.new }
        ensures charts { charts_of G.Engine self.new ≡ charts_of G.Engine self.old }
        ensures ok { OnOk result (routes_of self.new ≡ routes_of self.old ++ route ∷ []) }
        ensures err { OnErr result (routes_of self.new ≡ routes_of self.old) }
    {
        let ring = Ring::make(self.alloc, route.cap as usize)?;
        self.routes.reserve(1)?;
        self.rings.push(ring)?;
        self.routes.push_reserved(route);
        Ok(())
    }
}

impl<G: Engine + Drop> Net<G> {
    /// Adds a chart that isn't started to a net that isn't driven yet, by its name and what runs it,
    /// with room for the values of its steps. On an error the net is unchanged, and the name and the
    /// engine are dropped.
    pub fn add_chart(&mut self, name: Text, engine: G) -> Result<(), Memory>
        requires net { IsNet G.Engine self.old }
        requires fresh { G.stage engine ≡ Fresh }
        requires new { list_any (bytes_eq name) (net_shown G.Engine self.old).names ≡ false }
        requires few { length (charts_of G.Engine self.old) < CHART_LIMIT }
        requires few_events { length (G.declared (G.program engine)).events < 2 ^ 32 }
        requires few_data { length (G.declared (G.program engine)).vars < 2 ^ 32 }
        ensures net { IsNet G.Engine self.new }
        ensures ok { OnOk result (charts_of G.Engine self.new
            ≡ charts_of G.Engine self.old ++ record { name = name; program = G.program engine } ∷ []) }
        ensures err { OnErr result (charts_of G.Engine self.new ≡ charts_of G.Engine self.old) }
        ensures routes { routes_of self.new ≡ routes_of self.old }
    {
        let vals = InputVals::make(self.alloc, engine.view().names)?;
        let seat = Seat {
            name,
            engine,
            vals,
            index: 0,
        };
        self.seats.push(seat)?;
        Ok(())
    }
}
