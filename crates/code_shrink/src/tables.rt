//! Copies of what a code declares, and code that declares the same with other procedures.
ghost use Rattle.std.specs.Prelude.{◌≡◌, IfOk};
ghost use Rattle.flow_base.specs.Lists.{items_of};
ghost use Rattle.code_language.specs.Acceptance.{procs_of};
ghost use Rattle.code_language.specs.Code.{code_of};

use actions::{EventDecl, Var};
use code_language::{Instr, RawCode, RawState};
use flow_base::{List, Memory};
use std::alloc::Global;

/// A list of equal states.
fn copy_states(alloc: Global, states: &[RawState]) -> Result<List<RawState>, Memory>
    ensures { IfOk result (λ copies. items_of copies ≡ states.now) }
{
    let mut copies = List::of(Vec::new(alloc));
    for state in states {
        copies.push(RawState {
            parent: state.parent,
            comp: state.comp,
            name: state.name.copied(alloc)?,
        })?;
    }
    Ok(copies)
}

/// A list of equal data.
fn copy_vars(alloc: Global, vars: &[Var]) -> Result<List<Var>, Memory>
    ensures { IfOk result (λ copies. items_of copies ≡ vars.now) }
{
    let mut copies = List::of(Vec::new(alloc));
    for var in vars {
        copies.push(Var {
            name: var.name.copied(alloc)?,
            kind: var.kind,
            sort: var.sort,
            mode: var.mode,
            init: var.init,
        })?;
    }
    Ok(copies)
}

/// A list of equal events.
fn copy_events(alloc: Global, events: &[EventDecl]) -> Result<List<EventDecl>, Memory>
    ensures { IfOk result (λ copies. items_of copies ≡ events.now) }
{
    let mut copies = List::of(Vec::new(alloc));
    for event in events {
        copies.push(EventDecl {
            name: event.name.copied(alloc)?,
            kind: event.kind,
        })?;
    }
    Ok(copies)
}

/// Code that declares the same and has these procedures. `Memory` only where memory was refused.
///
/// Source: this project's choice.
pub fn with_procedures(
    alloc: Global,
    raw: &RawCode,
    procs: List<List<Instr>>,
    start: u32,
    react: u32,
) -> Result<RawCode, Memory>
    ensures { IfOk result (λ made. code_of made ≡ record (code_of raw.now) {
      procedures = record { procs = procs_of (items_of procs); start = start; react = react };
    }) }
{
    let states = copy_states(alloc, raw.states.items())?;
    let vars = copy_vars(alloc, raw.vars.items())?;
    let events = copy_events(alloc, raw.events.items())?;
    Ok(RawCode {
        states,
        vars,
        events,
        start,
        react,
        procs,
    })
}
