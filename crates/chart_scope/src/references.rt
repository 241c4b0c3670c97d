//! Names and paths that are used: the numbers of what they denote.
ghost use Rattle.std.specs.Prelude.{◌≡◌, ◌<◌, [], ◌∷◌};
ghost use Rattle.active_config.specs.Tree.{state_count};
ghost use Rattle.chart_tree.specs.First.{at_place};
ghost use Rattle.chart_tree.specs.Views.{path_of};
ghost use Rattle.chart_places.specs.Scopes.{meaning_of, state_at, junction_at};
ghost use Rattle.resolved_tree.specs.Faults.{first_with};
ghost use Rattle.chart_scope.specs.Uses as spec;

use chart_places::{Meaning, Scopes};
use chart_tree::{FaultAt, FormKind, NameText, PathText, Span, keep};
use resolved_tree::Ref;

/// Keeps a fault, where none that was found is before it.
#[tactic(auto, unfolding(resolved_tree::specs::Faults::first_with))]
pub(crate) fn note(found: &mut Option<FaultAt>, kind: FormKind, at: Span)
    ensures { found.new ≡ first_with found.old (at_place kind at ∷ []) }
{
    *found = keep(*found, FaultAt { kind, at });
}

/// The datum that a name denotes.
#[tactic(auto, unfolding(resolved_tree::specs::Faults::first_with))]
pub(crate) fn datum(scopes: &Scopes<'_>, name: &NameText, found: &mut Option<FaultAt>) -> Ref
    ensures built { result ≡ spec.declared_ref scopes.now name.now }
    ensures kept { found.new ≡ first_with found.old
        (spec.datum_faults (meaning_of scopes.now name.now.text) name.now.at) }
{
    let number = match scopes.meaning(name) {
        Some(Meaning::Datum(datum)) => datum,
        Some(Meaning::Event(event)) => {
            note(found, FormKind::WrongKind, name.at);
            event
        }
        None => {
            note(found, FormKind::UnknownName, name.at);
            0
        }
    };
    Ref {
        number,
        at: name.at,
    }
}

/// The event that a name denotes.
#[tactic(auto, unfolding(resolved_tree::specs::Faults::first_with))]
pub(crate) fn event(scopes: &Scopes<'_>, name: &NameText, found: &mut Option<FaultAt>) -> Ref
    ensures built { result ≡ spec.declared_ref scopes.now name.now }
    ensures kept { found.new ≡ first_with found.old
        (spec.event_faults (meaning_of scopes.now name.now.text) name.now.at) }
{
    let number = match scopes.meaning(name) {
        Some(Meaning::Event(event)) => event,
        Some(Meaning::Datum(datum)) => {
            note(found, FormKind::WrongKind, name.at);
            datum
        }
        None => {
            note(found, FormKind::UnknownName, name.at);
            0
        }
    };
    Ref {
        number,
        at: name.at,
    }
}

/// The place of a path: that of its first name.
fn path_place(path: &PathText) -> Span
    ensures { result ≡ spec.path_place (path_of path.now) }
{
    match path.names.items() {
        [] => Span { line: 0, column: 0 },
        [name, ..] => name.at,
    }
}

/// The state that a path in a state denotes.
#[tactic(auto, unfolding(resolved_tree::specs::Faults::first_with))]
pub(crate) fn state(
    scopes: &Scopes<'_>,
    state: u32,
    path: &PathText,
    found: &mut Option<FaultAt>,
) -> Ref
    requires state { state < state_count scopes.now.tree }
    ensures built { result ≡ spec.state_ref scopes.now state (path_of path.now) }
    ensures kept { found.new ≡ first_with found.old
        (spec.state_faults (state_at scopes.now state (path_of path.now))) }
{
    let number = match scopes.state_at(state, path) {
        Ok(state) => state,
        Err(at) => {
            note(found, FormKind::UnknownName, at);
            0
        }
    };
    Ref {
        number,
        at: path_place(path),
    }
}

/// The junction that a name in a state denotes.
#[tactic(auto, unfolding(resolved_tree::specs::Faults::first_with))]
pub(crate) fn junction(
    scopes: &Scopes<'_>,
    state: u32,
    name: &NameText,
    found: &mut Option<FaultAt>,
) -> Ref
    requires state { state < state_count scopes.now.tree }
    ensures built { result ≡ spec.junction_ref scopes.now state name.now }
    ensures kept { found.new ≡ first_with found.old
        (spec.junction_faults (junction_at scopes.now state name.now.text) name.now.at) }
{
    let number = match scopes.junction_at(state, name) {
        Some(junction) => junction,
        None => {
            note(found, FormKind::UnknownName, name.at);
            0
        }
    };
    Ref {
        number,
        at: name.at,
    }
}
