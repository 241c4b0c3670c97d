//! The engine that runs a chart by the rules.
use crate::reactions;
use crate::setting::Setting;
use crate::world::LiveWorld;
use actions::{Engine, Event, Halt, Phase, Value, View};
use checked_chart::Chart;
use flow_base::{Bounds, Memory};
use std::alloc::Global;
use std::marker::Model;

/// Runs a chart by the rules. `Memory` may come from a search through junctions, from collecting
/// the actions of a firing, and from emitting an event.
#[derive(Drop)]
pub struct Rules {
    alloc: Global,
    chart: Chart,
    bounds: Bounds,
    world: LiveWorld,
    phase: Phase,
}

impl Model for Rules {
    ghost use Rattle.std.specs.Coded.{codes};
    ghost use Rattle.actions.specs.contracts.expr.Expr as e;
    ghost use Rattle.actions.specs.Engines.{stage_of};
    ghost use Rattle.sos_interpreter.specs.Engine.{EngineState, IsEngine};

    ghost Value = { EngineState };

    ghost coded = { Prim.hlevel (codes, e.the_row.coded) };

    ghost view = { λ r. record {
      chart = r.chart;
      bounds = r.bounds;
      world = r.world;
      stage = stage_of r.phase;
    } };

    ghost invariant = { λ r. IsEngine (record {
      chart = r.chart;
      bounds = r.bounds;
      world = r.world;
      stage = stage_of r.phase;
    }) };
}

impl Rules {
    ghost use Rattle.std.specs.Prelude.{◌≡◌, IfOk};
    ghost use Rattle.sos_interpreter.specs.Engine.{fresh_engine};

    /// An engine before its start.
    pub fn make(alloc: Global, chart: Chart, bounds: Bounds) -> Result<Rules, Memory>
        ensures { IfOk result (λ engine. engine ≡ fresh_engine chart bounds) }
    {
        let world = LiveWorld::make(alloc, chart.shape(), chart.names())?;
        Ok(Rules {
            alloc,
            chart,
            bounds,
            world,
            phase: Phase::Fresh,
        })
    }
}

impl Engine for Rules {
    ghost use Rattle.std.specs.Prelude.{◌≡◌, false};
    ghost use Rattle.sos_interpreter.specs.Engine.{Program, program_of, Starts, Reacts};
    ghost use Rattle.sos_interpreter.specs.EngineLaws as laws;

    ghost Program = { Program };

    ghost tree = { λ p. p.chart.tree };

    ghost declared = { λ p. p.chart.names };

    ghost Starts = { Starts };

    ghost Reacts = { Reacts };

    ghost never_wants_memory = { false };

    ghost program = { program_of };

    ghost world = { λ r. r.world };

    ghost stage = { λ r. r.stage };

    fn start(&mut self) -> Result<(), Halt> {
        let setting = Setting {
            alloc: self.alloc,
            chart: &self.chart,
            bounds: self.bounds,
        };
        let end = reactions::start(&setting, &mut self.world);
        self.phase = Phase::after(&end);
        end
    }

    fn set_input(&mut self, datum: u32, value: Value) {
        self.world.set_input(datum, value);
    }

    fn react(&mut self, event: Event) -> Result<(), Halt> {
        let setting = Setting {
            alloc: self.alloc,
            chart: &self.chart,
            bounds: self.bounds,
        };
        let end = reactions::react(&setting, &mut self.world, event);
        self.phase = Phase::after(&end);
        end
    }

    fn view(&self) -> View<'_> {
        View {
            shape: self.chart.shape(),
            marks: self.world.marks(),
            vals: self.world.vals(),
            names: self.chart.names(),
            outputs: self.world.outputs(),
        }
    }

    ghost one_start = { laws.rules_one_start };

    ghost one_reaction = { laws.rules_one_reaction };
}
