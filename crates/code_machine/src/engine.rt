//! The engine that runs code.
ghost use Rattle.std.specs.Prelude.{◌≡◌};
ghost use Rattle.actions.specs.Names.{Names};
ghost use Rattle.code_language.specs.Moments.{IsEvent};

use crate::loaded::LoadedCode;
use crate::loading::making::{load, new_state};
use crate::runs::running::process;
use crate::state::MachineState;
use actions::{Engine, Event, Halt, Phase, Value, View, halting, store};
use code_language::Code;
use flow_base::{Bounds, Memory};
use std::alloc::Global;
use std::marker::Model;

/// Runs well-formed code. Once it is made it takes no memory.
#[derive(Drop)]
pub struct Machine {
    code: LoadedCode,
    state: MachineState,
    phase: Phase,
}

impl Model for Machine {
    ghost use Rattle.std.specs.Coded.{codes};
    ghost use Rattle.actions.specs.contracts.expr.Expr as e;
    ghost use Rattle.actions.specs.Engines.{stage_of};
    ghost use Rattle.code_machine.specs.Engine.{EngineState, IsMachine};
    ghost use Rattle.code_machine.specs.States.{world_of};

    ghost Value = { EngineState };

    ghost coded = { Prim.hlevel (codes, e.the_row.coded) };

    ghost view = { λ r. record { code = r.code; world = world_of r.state; stage = stage_of r.phase } };

    ghost invariant = { λ r. IsMachine r.code r.state (stage_of r.phase) };
}

impl Machine {
    ghost use Rattle.std.specs.Prelude.{IfOk};
    ghost use Rattle.code_language.specs.Code.{code_of};
    ghost use Rattle.code_machine.specs.Engine.{IsFresh};

    /// A machine before its start. It has all memory that its events will need.
    pub fn make(alloc: Global, code: Code, bounds: Bounds) -> Result<Machine, Memory>
        ensures { IfOk result (IsFresh (code_of code) bounds) }
    {
        let height = code.height();
        let code = load(alloc, code, bounds)?;
        let state = new_state(alloc, &code, height)?;
        Ok(Machine {
            code,
            state,
            phase: Phase::Fresh,
        })
    }
}

impl Engine for Machine {
    ghost use Rattle.std.specs.Prelude.{◌≡◌, ◌≢◌, true, Err};
    ghost use Rattle.actions.specs.declared.engine.Halt.TheVariants as halts;
    ghost use Rattle.actions.specs.Engines.{Fresh, Running, CanReactTo, AnswersBy, fault_of, IsFaultOf, stage_after};
    ghost use Rattle.code_machine.specs.Engine.{Program, program_of, Starts, Reacts, StartsShortly, ReactsShortly};
    ghost use Rattle.code_machine.specs.EngineLaws as laws;

    ghost Program = { Program };

    ghost tree = { λ p. p.code.tree };

    ghost declared = { λ p. p.code.names };

    ghost Starts = { Starts };

    ghost Reacts = { Reacts };

    ghost never_wants_memory = { true };

    ghost program = { program_of };

    ghost world = { λ r. r.world };

    ghost stage = { λ r. r.stage };

    /// Starts the run. It takes no memory, and at most `most_instructions` instructions of the code.
    fn start(&mut self) -> Result<(), Halt>
        requires fresh { self.old.stage ≡ Fresh }
        ensures defined { AnswersBy (Starts (program_of self.old) self.new.world) result }
        ensures short { AnswersBy (StartsShortly (program_of self.old) self.new.world) result }
        ensures fault { IsFaultOf (program_of self.old).code.names (fault_of result) }
        ensures program { program_of self.new ≡ program_of self.old }
        ensures stage { self.new.stage ≡ stage_after result }
        ensures memory { result ≢ Err halts.Memory }
    {
        let proc = self.code.start;
        let end = halting(process(&self.code, &mut self.state, proc, Event::Start));
        self.phase = Phase::after(&end);
        end
    }

    fn set_input(&mut self, datum: u32, value: Value) {
        store(&mut self.state.vals, datum, value);
    }

    /// Processes a tick or an input event. It takes no memory, and at most `most_instructions`
    /// instructions of the code.
    fn react(&mut self, event: Event) -> Result<(), Halt>
        requires running { self.old.stage ≡ Running }
        requires event { CanReactTo (program_of self.old).code.names event }
        ensures defined { AnswersBy (Reacts (program_of self.old) self.old.world event self.new.world) result }
        ensures short { AnswersBy (ReactsShortly (program_of self.old) self.old.world event self.new.world) result }
        ensures fault { IsFaultOf (program_of self.old).code.names (fault_of result) }
        ensures program { program_of self.new ≡ program_of self.old }
        ensures stage { self.new.stage ≡ stage_after result }
        ensures memory { result ≢ Err halts.Memory }
    {
        let proc = self.code.react;
        let end = halting(process(&self.code, &mut self.state, proc, event));
        self.phase = Phase::after(&end);
        end
    }

    fn view(&self) -> View<'_> {
        View {
            shape: &self.code.shape,
            marks: &self.state.marks,
            vals: &self.state.vals,
            names: &self.code.names,
            outputs: &self.state.outputs,
        }
    }

    ghost one_start = { laws.one_start };

    ghost one_reaction = { laws.one_reaction };
}
