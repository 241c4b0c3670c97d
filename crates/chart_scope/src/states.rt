//! States and junctions, with numbers for their names.
ghost use Rattle.std.specs.Prelude.{◌≡◌, ◌<◌, ◌^◌, ◌++◌, All, length, IfOk, OnOk, map};
ghost use Rattle.active_config.specs.Tree.{state_count};
ghost use Rattle.flow_base.specs.Lists.{items_of};
ghost use Rattle.chart_places.specs.declared.junctions.OwnedJunction.{OwnedJunction};
ghost use Rattle.chart_places.specs.Placed as places;
ghost use Rattle.chart_places.specs.Survey.{placed_of, owned_of};
ghost use Rattle.resolved_tree.specs.Faults.{first_with};
ghost use Rattle.resolved_tree.specs.Views as views;
ghost use Rattle.chart_scope.specs.Names as names;
ghost use Rattle.chart_scope.specs.Resolution as spec;
ghost use Rattle.chart_scope.specs.Uses as uses;

use crate::statements::block;
use crate::transitions::list;
use active_config::Comp;
use chart_places::{OwnedJunction, PlacedState, Scopes};
use chart_tree::{CompText, FaultAt};
use flow_base::List;
use resolved_tree::{ResolvedJunction, ResolvedState, ResolvedStmt, ResolvedTrans};
use std::alloc::{AllocError, Global};

/// The composition word of a state: an OR where it has child states and no word.
#[tactic(auto, using(crate::proofs::StateViews::seen))]
fn word(placed: &PlacedState<'_>) -> Comp
    ensures { result ≡ places.placed_word (placed_of placed.now) }
{
    match placed.state.comp {
        CompText::Or => Comp::Or,
        CompText::And => Comp::And,
        CompText::None => {
            if placed.state.states.items().is_empty() {
                Comp::Leaf
            } else {
                Comp::Or
            }
        }
    }
}

/// The actions of a state.
#[derive(Drop)]
struct Actions {
    entry: List<ResolvedStmt>,
    during: List<ResolvedStmt>,
    exit: List<ResolvedStmt>,
}

/// The lists of transitions of a state.
#[derive(Drop)]
struct Lists {
    outer: List<ResolvedTrans>,
    inner: List<ResolvedTrans>,
    default: List<ResolvedTrans>,
}

/// The actions of a state, with numbers for their names. The first fault of these is kept.
fn state_actions(
    alloc: Global,
    scopes: &Scopes<'_>,
    number: u32,
    placed: &PlacedState<'_>,
    found: &mut Option<FaultAt>,
) -> Result<Actions, AllocError>
    requires state { number < state_count scopes.now.tree }
    ensures entry { IfOk result (λ r. views.block_of (items_of r.entry)
        ≡ map (uses.resolved_stmt scopes.now number) (placed_of placed.now).parts.entry) }
    ensures during { IfOk result (λ r. views.block_of (items_of r.during)
        ≡ map (uses.resolved_stmt scopes.now number) (placed_of placed.now).parts.during) }
    ensures exit { IfOk result (λ r. views.block_of (items_of r.exit)
        ≡ map (uses.resolved_stmt scopes.now number) (placed_of placed.now).parts.exit) }
    ensures kept { OnOk result (found.new ≡ first_with found.old
        (uses.block_faults scopes.now number (placed_of placed.now).parts.entry
        ++ uses.block_faults scopes.now number (placed_of placed.now).parts.during
        ++ uses.block_faults scopes.now number (placed_of placed.now).parts.exit)) }
{
    let text = placed.state;
    let entry = block(alloc, scopes, number, text.entry.items(), found)?;
    let during = block(alloc, scopes, number, text.during.items(), found)?;
    let exit = block(alloc, scopes, number, text.exit.items(), found)?;
    Ok(Actions {
        entry,
        during,
        exit,
    })
}

/// The transitions of a state, with numbers for their names. The first fault of these is kept.
fn state_lists(
    alloc: Global,
    scopes: &Scopes<'_>,
    number: u32,
    placed: &PlacedState<'_>,
    found: &mut Option<FaultAt>,
) -> Result<Lists, AllocError>
    requires state { number < state_count scopes.now.tree }
    ensures outer { IfOk result (λ r. views.list_of (items_of r.outer)
        ≡ map (uses.resolved_trans scopes.now number) (placed_of placed.now).parts.outer) }
    ensures inner { IfOk result (λ r. views.list_of (items_of r.inner)
        ≡ map (uses.resolved_trans scopes.now number) (placed_of placed.now).parts.inner) }
    ensures default { IfOk result (λ r. views.list_of (items_of r.default)
        ≡ map (uses.resolved_trans scopes.now number) (placed_of placed.now).parts.default) }
    ensures kept { OnOk result (found.new ≡ first_with found.old
        (uses.list_faults scopes.now number (placed_of placed.now).parts.outer
        ++ uses.list_faults scopes.now number (placed_of placed.now).parts.inner
        ++ uses.list_faults scopes.now number (placed_of placed.now).parts.default)) }
{
    let text = placed.state;
    let outer = list(alloc, scopes, number, text.outer.items(), found)?;
    let inner = list(alloc, scopes, number, text.inner.items(), found)?;
    let default = list(alloc, scopes, number, text.default.items(), found)?;
    Ok(Lists {
        outer,
        inner,
        default,
    })
}

/// A state, with numbers for its names. The first fault of these is kept.
fn state(
    alloc: Global,
    scopes: &Scopes<'_>,
    number: u32,
    placed: &PlacedState<'_>,
    found: &mut Option<FaultAt>,
) -> Result<ResolvedState, AllocError>
    requires state { number < state_count scopes.now.tree }
    ensures built { IfOk result (λ r. views.state_of r
        ≡ spec.resolved_state scopes.now number (placed_of placed.now)) }
    ensures kept { OnOk result (found.new ≡ first_with found.old
        (names.parts_faults scopes.now number (placed_of placed.now).parts)) }
{
    let actions = state_actions(alloc, scopes, number, placed, found)?;
    let lists = state_lists(alloc, scopes, number, placed, found)?;
    Ok(ResolvedState {
        at: placed.state.name.at,
        word: word(placed),
        history: placed.state.history,
        entry: actions.entry,
        during: actions.during,
        exit: actions.exit,
        outer: lists.outer,
        inner: lists.inner,
        default: lists.default,
    })
}

/// States, with numbers for their names. The first fault of these is kept.
#[tactic(auto, using(crate::proofs::FoundLemmas::found_steps))]
pub(crate) fn states(
    alloc: Global,
    scopes: &Scopes<'_>,
    states: &[PlacedState<'_>],
    found: &mut Option<FaultAt>,
) -> Result<List<ResolvedState>, AllocError>
    requires few { length states.now < 2 ^ 32 }
    requires all { length states.now ≡ state_count scopes.now.tree }
    ensures built { IfOk result (λ r. map views.state_of (items_of r)
        ≡ spec.resolved_states scopes.now 0 (map placed_of states.now)) }
    ensures kept { OnOk result (found.new ≡ first_with found.old
        (names.used_in_states scopes.now 0 (map placed_of states.now))) }
{
    let mut built = Vec::new(alloc);
    for (number, placed) in states.iter().enumerate() {
        built.push(state(alloc, scopes, number as u32, placed, found)?)?;
    }
    Ok(List::of(built))
}

/// A junction, with numbers for its names. The first fault of these is kept.
#[tactic(auto, using(crate::proofs::FoundLemmas::found_steps))]
fn junction(
    alloc: Global,
    scopes: &Scopes<'_>,
    owned: &OwnedJunction<'_>,
    found: &mut Option<FaultAt>,
) -> Result<ResolvedJunction, AllocError>
    requires owner { owned.now.owner < state_count scopes.now.tree }
    ensures built { IfOk result (λ r. views.junction_of r
        ≡ spec.resolved_junction scopes.now (owned_of owned.now)) }
    ensures kept { OnOk result (found.new ≡ first_with found.old
        (uses.list_faults scopes.now owned.now.owner (owned_of owned.now).junction.list)) }
{
    let text = owned.junction;
    Ok(ResolvedJunction {
        at: text.name.at,
        list: list(alloc, scopes, owned.owner, text.list.items(), found)?,
    })
}

/// Junctions, with numbers for their names. The first fault of these is kept.
#[tactic(auto, using(crate::proofs::FoundLemmas::found_steps))]
pub(crate) fn junctions(
    alloc: Global,
    scopes: &Scopes<'_>,
    junctions: &[OwnedJunction<'_>],
    found: &mut Option<FaultAt>,
) -> Result<List<ResolvedJunction>, AllocError>
    requires owners { All (λ (o : OwnedJunction). o.owner < state_count scopes.now.tree)
        junctions.now }
    ensures built { IfOk result (λ r. map views.junction_of (items_of r)
        ≡ map (spec.resolved_junction scopes.now) (map owned_of junctions.now)) }
    ensures kept { OnOk result (found.new ≡ first_with found.old
        (names.used_in_junctions scopes.now (map owned_of junctions.now))) }
{
    let mut built = Vec::new(alloc);
    for owned in junctions {
        built.push(junction(alloc, scopes, owned, found)?)?;
    }
    Ok(List::of(built))
}
