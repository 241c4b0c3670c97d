//! Names that stand twice.
ghost use Rattle.std.specs.Prelude.{◌≡◌, ◌<◌, ◌^◌, ℕ, All, length, map, Option};
ghost use Rattle.std.specs.Option.{option_map};
ghost use Rattle.active_config.specs.Tree.{state_count, parent_of};
ghost use Rattle.chart_tree.specs.declared.chart.EventText.{EventText};
ghost use Rattle.chart_tree.specs.Trees as trees;
ghost use Rattle.chart_tree.specs.Views.{var_of};
ghost use Rattle.chart_places.specs.declared.junctions.OwnedJunction.{OwnedJunction};
ghost use Rattle.chart_places.specs.Meanings.{meaning_seen};
ghost use Rattle.chart_places.specs.Placed.{Placed};
ghost use Rattle.chart_places.specs.Scopes.{junction_name};
ghost use Rattle.chart_places.specs.Survey.{placed_of, owned_of};
ghost use Rattle.resolved_tree.specs.Faults.{first_with};
ghost use Rattle.chart_scope.specs.Names as spec;

use crate::references::note;
use chart_places::{Meaning, OwnedJunction, PlacedState, Scopes};
use chart_tree::{EventText, FaultAt, FormKind, NameText, VarText};

/// Keeps the fault of a name that means another thing.
#[tactic(auto, unfolding(resolved_tree::specs::Faults::first_with))]
fn unless_own(own: bool, name: &NameText, found: &mut Option<FaultAt>)
    ensures { found.new ≡ first_with found.old (spec.unless_own own name.now) }
{
    if !own {
        note(found, FormKind::NameTwice, name.at);
    }
}

/// Whether a name means that event.
fn means_event(number: u32, meaning: Option<Meaning>) -> bool
    ensures { result ≡ spec.means_event number (option_map meaning_seen meaning) }
{
    match meaning {
        Some(Meaning::Event(event)) => event == number,
        Some(Meaning::Datum(_)) => false,
        None => false,
    }
}

/// Whether a name means that datum.
fn means_datum(number: u32, meaning: Option<Meaning>) -> bool
    ensures { result ≡ spec.means_datum number (option_map meaning_seen meaning) }
{
    match meaning {
        Some(Meaning::Event(_)) => false,
        Some(Meaning::Datum(datum)) => datum == number,
        None => false,
    }
}

/// Whether what was found is that number.
fn is_number(number: u32, one: Option<u32>) -> bool
    ensures { result ≡ spec.is_number number one }
{
    match one {
        Some(one) => one == number,
        None => false,
    }
}

/// Keeps the first fault of events whose name an earlier event or datum has.
#[tactic(auto, using(crate::proofs::FoundLemmas::found_steps))]
pub(crate) fn with_events(scopes: &Scopes<'_>, events: &[EventText], found: &mut Option<FaultAt>)
    requires few { length events.now < 2 ^ 32 }
    ensures { found.new ≡ first_with found.old
        (spec.doubled_events scopes.now 0 (map (λ (e : EventText). e.name) events.now)) }
{
    for (number, event) in events.iter().enumerate() {
        let own = means_event(number as u32, scopes.meaning(&event.name));
        unless_own(own, &event.name, found);
    }
}

/// Keeps the first fault of data whose name an earlier event or datum has.
#[tactic(auto, using(crate::proofs::FoundLemmas::found_steps))]
pub(crate) fn with_vars(scopes: &Scopes<'_>, vars: &[VarText], found: &mut Option<FaultAt>)
    requires few { length vars.now < 2 ^ 32 }
    ensures { found.new ≡ first_with found.old
        (spec.doubled_vars scopes.now 0 (map (λ (v : trees.Var). v.name) (map var_of vars.now))) }
{
    for (number, var) in vars.iter().enumerate() {
        let own = means_datum(number as u32, scopes.meaning(&var.name));
        unless_own(own, &var.name, found);
    }
}

/// Keeps the fault of a state whose name an earlier child of its parent has.
#[tactic(auto, using(crate::proofs::FoundLemmas::found_steps))]
fn with_state(scopes: &Scopes<'_>, state: u32, name: &NameText, found: &mut Option<FaultAt>)
    requires { state < state_count scopes.now.tree }
    ensures { found.new ≡ first_with found.old
        (spec.doubled_state scopes.now state (parent_of scopes.now.tree state) name.now) }
{
    match scopes.parent(state) {
        None => {}
        Some(parent) => {
            let own = is_number(state, scopes.child_named(parent, name));
            unless_own(own, name, found);
        }
    }
}

/// Keeps the first fault of states whose name an earlier child of their parent has.
#[tactic(auto, using(crate::proofs::StateViews::seen))]
pub(crate) fn with_states(
    scopes: &Scopes<'_>,
    states: &[PlacedState<'_>],
    found: &mut Option<FaultAt>,
)
    requires few { length states.now < 2 ^ 32 }
    requires all { length states.now ≡ state_count scopes.now.tree }
    ensures { found.new ≡ first_with found.old
        (spec.doubled_states scopes.now 0
        (map (λ (x : Placed). x.parts.name) (map placed_of states.now))) }
{
    for (number, placed) in states.iter().enumerate() {
        with_state(scopes, number as u32, &placed.state.name, found);
    }
}

/// Keeps the first fault of junctions whose name an earlier junction of their state has.
#[tactic(auto, using(crate::proofs::FoundLemmas::found_steps))]
pub(crate) fn with_junctions(
    scopes: &Scopes<'_>,
    junctions: &[OwnedJunction<'_>],
    found: &mut Option<FaultAt>,
)
    requires few { length junctions.now < 2 ^ 32 }
    requires owners { All (λ (o : OwnedJunction). o.owner < state_count scopes.now.tree)
        junctions.now }
    ensures { found.new ≡ first_with found.old
        (spec.doubled_junctions scopes.now 0 (map junction_name (map owned_of junctions.now))) }
{
    for (number, owned) in junctions.iter().enumerate() {
        let name = &owned.junction.name;
        let own = is_number(number as u32, scopes.junction_named(owned.owner, name));
        unless_own(own, name, found);
    }
}
