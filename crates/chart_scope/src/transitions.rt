//! Transitions, with numbers for their names.
ghost use Rattle.std.specs.Prelude.{◌≡◌, ◌<◌, IfOk, OnOk, map, Option};
ghost use Rattle.std.specs.Option.{option_map};
ghost use Rattle.active_config.specs.Tree.{state_count};
ghost use Rattle.flow_base.specs.Lists.{items_of};
ghost use Rattle.chart_tree.specs.Views as texts;
ghost use Rattle.resolved_tree.specs.Faults.{first_with};
ghost use Rattle.resolved_tree.specs.Views as views;
ghost use Rattle.chart_scope.specs.Uses as spec;

use crate::expressions::expr;
use crate::references;
use crate::statements::block;
use chart_places::Scopes;
use chart_tree::{DestText, FaultAt, GuardText, NameText, TransText};
use flow_base::List;
use resolved_tree::{Ref, ResolvedDest, ResolvedGuard, ResolvedTrans};
use std::alloc::{AllocError, Global};

/// The event that triggers a transition, where there is one.
#[tactic(auto, unfolding(resolved_tree::specs::Faults::first_with))]
fn trigger(scopes: &Scopes<'_>, name: &Option<NameText>, found: &mut Option<FaultAt>) -> Option<Ref>
    ensures built { result ≡ spec.resolved_trigger scopes.now name.now }
    ensures kept { found.new ≡ first_with found.old (spec.trigger_faults scopes.now name.now) }
{
    match name {
        None => None,
        Some(name) => Some(references::event(scopes, name, found)),
    }
}

/// A guard of a state, where there is one, with numbers for its names. The first fault of these is
/// kept.
#[tactic(auto, unfolding(resolved_tree::specs::Faults::first_with))]
fn guard(
    alloc: Global,
    scopes: &Scopes<'_>,
    state: u32,
    text: &Option<GuardText>,
    found: &mut Option<FaultAt>,
) -> Result<Option<ResolvedGuard>, AllocError>
    requires state { state < state_count scopes.now.tree }
    ensures built { IfOk result (λ r. option_map views.guard_of r
        ≡ spec.resolved_guard scopes.now state (option_map texts.guard_of text.now)) }
    ensures kept { OnOk result (found.new ≡ first_with found.old
        (spec.guard_faults scopes.now state (option_map texts.guard_of text.now))) }
{
    match text {
        None => Ok(None),
        Some(guard) => Ok(Some(ResolvedGuard {
            expr: expr(alloc, scopes, state, &guard.expr, found)?,
            at: guard.at,
        })),
    }
}

/// The destination of a transition that stands in a state.
fn dest(
    scopes: &Scopes<'_>,
    state: u32,
    text: &DestText,
    found: &mut Option<FaultAt>,
) -> ResolvedDest
    requires state { state < state_count scopes.now.tree }
    ensures built { result ≡ spec.resolved_dest scopes.now state (texts.dest_of text.now) }
    ensures kept { found.new ≡ first_with found.old
        (spec.dest_faults scopes.now state (texts.dest_of text.now)) }
{
    match text {
        DestText::State(path) => ResolvedDest::State(references::state(scopes, state, path, found)),
        DestText::Junction(name) => ResolvedDest::Junction(references::junction(
            scopes, state, name, found,
        )),
    }
}

/// A transition that stands in a state, with numbers for its names. The first fault of these is
/// kept.
fn trans(
    alloc: Global,
    scopes: &Scopes<'_>,
    state: u32,
    text: &TransText,
    found: &mut Option<FaultAt>,
) -> Result<ResolvedTrans, AllocError>
    requires state { state < state_count scopes.now.tree }
    ensures built { IfOk result (λ r. views.trans_of r
        ≡ spec.resolved_trans scopes.now state (texts.trans_of text.now)) }
    ensures kept { OnOk result (found.new ≡ first_with found.old
        (spec.trans_faults scopes.now state (texts.trans_of text.now))) }
{
    let event = trigger(scopes, &text.event, found);
    let guard = guard(alloc, scopes, state, &text.guard, found)?;
    let cond = block(alloc, scopes, state, text.cond.items(), found)?;
    let act = block(alloc, scopes, state, text.act.items(), found)?;
    let dest = dest(scopes, state, &text.dest, found);
    Ok(ResolvedTrans {
        at: text.at,
        event,
        guard,
        cond,
        act,
        dest,
    })
}

/// A list of transitions that stands in a state, with numbers for its names. The first fault of
/// these is kept.
#[tactic(auto, using(crate::proofs::FoundLemmas::found_steps))]
pub(crate) fn list(
    alloc: Global,
    scopes: &Scopes<'_>,
    state: u32,
    list: &[TransText],
    found: &mut Option<FaultAt>,
) -> Result<List<ResolvedTrans>, AllocError>
    requires state { state < state_count scopes.now.tree }
    ensures built { IfOk result (λ r. views.list_of (items_of r)
        ≡ map (spec.resolved_trans scopes.now state) (map texts.trans_of list.now)) }
    ensures kept { OnOk result (found.new ≡ first_with found.old
        (spec.list_faults scopes.now state (map texts.trans_of list.now))) }
{
    let mut built = Vec::new(alloc);
    for text in list {
        built.push(trans(alloc, scopes, state, text, found)?)?;
    }
    Ok(List::of(built))
}
