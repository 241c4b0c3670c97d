//! What a chart declares.
ghost use Rattle.std.specs.Prelude.{◌≡◌, IfOk, map};
ghost use Rattle.flow_base.specs.Lists.{items_of};
ghost use Rattle.actions.specs.Names as declared;
ghost use Rattle.chart_tree.specs.declared.chart.VarText.{VarText};
ghost use Rattle.chart_tree.specs.Trees as trees;
ghost use Rattle.chart_tree.specs.Views.{var_of};
ghost use Rattle.chart_places.specs.Placed.{Placed};
ghost use Rattle.chart_places.specs.Survey.{placed_of};
ghost use Rattle.chart_scope.specs.Resolution as spec;

use actions::{EventDecl, EventKind, Sort, Var, VarKind};
use chart_places::PlacedState;
use chart_tree::{EventText, EventWord, InitText, SortText, VarText, VarWord};
use fixed_point::Mode;
use flow_base::{List, Text};
use std::alloc::{AllocError, Global};

/// The kind of an event that a word names.
fn event_kind(word: EventWord) -> EventKind
    ensures { result ≡ spec.event_kind word }
{
    match word {
        EventWord::Input => EventKind::Input,
        EventWord::Local => EventKind::Local,
        EventWord::Output => EventKind::Output,
    }
}

/// The kind of a datum that a word names.
fn var_kind(word: VarWord) -> VarKind
    ensures { result ≡ spec.var_kind word }
{
    match word {
        VarWord::Input => VarKind::Input,
        VarWord::Output => VarKind::Output,
        VarWord::Local => VarKind::Local,
    }
}

/// The declarations of events.
pub(crate) fn events(alloc: Global, texts: &[EventText]) -> Result<List<EventDecl>, AllocError>
    ensures { IfOk result (λ r. items_of r ≡ map spec.event_decl texts.now) }
{
    let mut events = Vec::new(alloc);
    for text in texts {
        events.push(EventDecl {
            name: text.name.text.copied(alloc)?,
            kind: event_kind(text.kind),
        })?;
    }
    Ok(List::of(events))
}

/// A datum of a type, with 0 for its first value.
fn var(alloc: Global, text: &VarText) -> Result<Var, AllocError>
    ensures { IfOk result (spec.IsVarOf (var_of text.now)) }
{
    let (sort, mode) = match text.sort {
        // A flag has no mode of its own.
        SortText::Flag => (Sort::Flag, Mode::Saturate),
        SortText::Number(scale, mode) => (Sort::Number(scale), mode),
    };
    Ok(Var {
        name: text.name.text.copied(alloc)?,
        kind: var_kind(text.kind),
        sort,
        mode,
        init: 0,
    })
}

/// The declarations of data.
#[tactic(auto, using(crate::proofs::DeclarationLemmas::declared_steps))]
pub(crate) fn vars(alloc: Global, texts: &[VarText]) -> Result<List<Var>, AllocError>
    ensures { IfOk result (λ r. spec.AreVarsOf (map var_of texts.now) (items_of r)) }
{
    let mut vars = Vec::new(alloc);
    for text in texts {
        vars.push(var(alloc, text)?)?;
    }
    Ok(List::of(vars))
}

/// The first values of data, as they are written.
pub(crate) fn inits(alloc: Global, texts: &[VarText]) -> Result<List<InitText>, AllocError>
    ensures { IfOk result (λ r. items_of r
        ≡ map (λ (v : trees.Var). v.init) (map var_of texts.now)) }
{
    let mut inits = Vec::new(alloc);
    for text in texts {
        inits.push(text.init)?;
    }
    Ok(List::of(inits))
}

/// The names of states.
#[tactic(auto, using(crate::proofs::StateViews::seen))]
pub(crate) fn state_names(
    alloc: Global,
    states: &[PlacedState<'_>],
) -> Result<List<Text>, AllocError>
    ensures { IfOk result (λ r. items_of r
        ≡ map (λ (x : Placed). x.parts.name.text) (map placed_of states.now)) }
{
    let mut names = Vec::new(alloc);
    for placed in states {
        names.push(placed.state.name.text.copied(alloc)?)?;
    }
    Ok(List::of(names))
}
