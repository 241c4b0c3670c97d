//! Whether a name stands twice where it may stand once.
ghost use Rattle.std.specs.Prelude.{◌≡◌, ◌++◌, [], ◌∷◌, map, true, not, IfOk};
ghost use Rattle.std.specs.List.{list_any};
ghost use Rattle.flow_base.specs.Names.{are_distinct};
ghost use Rattle.code_language.specs.Acceptance as spec;

use crate::code::RawState;
use actions::{EventDecl, Var};
use flow_base::{Memory, Text};
use indexmap::IndexSet;
use std::alloc::Global;

/// Marks a name that stands in that state, if it stands in one. Whether it is the first such name.
fn is_first<'a>(
    seen: &mut IndexSet<(Option<u32>, &'a str)>,
    owner: Option<u32>,
    name: &'a Text,
) -> Result<bool, Memory>
    ensures first { IfOk result (λ first. first
        ≡ not (list_any (spec.is_same (spec.named owner name.now)) (map spec.named_of seen.old.keys))) }
    ensures seen { IfOk result (λ first. first ≡ true → map spec.named_of seen.new.keys
        ≡ map spec.named_of seen.old.keys ++ spec.named owner name.now ∷ []) }
{
    let first = seen.insert((owner, name.text()))?;
    Ok(first)
}

/// Whether no name stands twice among data and events, each of which is marked up to the first name
/// that does; no name is marked before.
fn are_both_first<'a>(
    seen: &mut IndexSet<(Option<u32>, &'a str)>,
    vars: &'a [Var],
    events: &'a [EventDecl],
) -> Result<bool, Memory>
    requires { seen.old.keys ≡ [] }
    ensures { IfOk result (λ fits. fits ≡ are_distinct (spec.names_of_both vars.now events.now)) }
{
    for var in vars {
        if !is_first(seen, None, &var.name)? {
            return Ok(false);
        }
    }
    for event in events {
        if !is_first(seen, None, &event.name)? {
            return Ok(false);
        }
    }
    Ok(true)
}

/// Whether no name stands twice among data and events.
pub fn are_names_distinct(alloc: Global, vars: &[Var], events: &[EventDecl]) -> Result<bool, Memory>
    ensures { IfOk result (λ fits. fits ≡ are_distinct (spec.names_of_both vars.now events.now)) }
{
    let mut seen = IndexSet::new(alloc);
    let fits = are_both_first(&mut seen, vars, events);
    drop(seen);
    fits
}

/// Whether no two states have the same parent and the same name; each name is marked up to the first
/// that stands twice, and none is marked before.
fn are_states_first<'a>(
    seen: &mut IndexSet<(Option<u32>, &'a str)>,
    states: &'a [RawState],
) -> Result<bool, Memory>
    requires { seen.old.keys ≡ [] }
    ensures { IfOk result (λ fits. fits ≡ spec.has_no_twins states.now) }
{
    for state in states {
        if !is_first(seen, state.parent, &state.name)? {
            return Ok(false);
        }
    }
    Ok(true)
}

/// Whether no two states have the same parent and the same name.
pub fn has_no_twins(alloc: Global, states: &[RawState]) -> Result<bool, Memory>
    ensures { IfOk result (λ fits. fits ≡ spec.has_no_twins states.now) }
{
    let mut seen = IndexSet::new(alloc);
    let fits = are_states_first(&mut seen, states);
    drop(seen);
    fits
}
