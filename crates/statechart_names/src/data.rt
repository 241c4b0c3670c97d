//! Data that names denote.
ghost use Rattle.std.specs.Prelude.{◌≡◌, IfOk, is_some, Option, Some};
ghost use Rattle.flow_base.specs.Names.{index_of};
ghost use Rattle.statechart_meaning.specs.Scope as spec;
ghost use Rattle.statechart_scope.specs.Frames.{frames_of};
ghost use Rattle.statechart_names.specs.Seen.{lowest_names, lowest_frame};

use crate::states::{child_of, lowest};
use chart_tree::NameText;
use flow_base::{Memory, Text};
use statechart_scope::{Frames, datum_name};
use std::alloc::Global;

/// Whether the lowest state has a datum of that name.
#[tactic(auto, using(crate::proofs::DatumLemmas::has_steps))]
fn has_datum(frames: &Frames<'_>, name: &str) -> bool
    ensures { result ≡ is_some (index_of name.now (lowest_names frames.now)) }
{
    let vars = lowest(frames).parts.vars.items();
    for var in vars {
        if var.name.text.text() == name {
            return true;
        }
    }
    false
}

/// The datum of that name of the lowest state.
#[tactic(auto, using(crate::proofs::DatumLemmas::in_steps))]
fn datum_in(alloc: Global, frames: &Frames<'_>, name: &str) -> Result<Option<Text>, Memory>
    ensures { IfOk result (λ o. o ≡ spec.datum_in (lowest_frame frames.now) name.now) }
{
    if has_datum(frames, name) {
        Ok(Some(Text::of(datum_name(alloc, frames, name)?)))
    } else {
        Ok(None)
    }
}

/// The datum of that name of the first state that has one.
#[tactic(auto, using(crate::proofs::DatumLemmas::named_steps))]
fn datum_named(alloc: Global, frames: &Frames<'_>, name: &str) -> Result<Option<Text>, Memory>
    ensures { IfOk result (λ o. o ≡ spec.datum_named (frames_of frames.now) name.now) }
{
    match datum_in(alloc, frames, name)? {
        Some(text) => Ok(Some(text)),
        None => match frames {
            Frames::Root(_) => Ok(None),
            Frames::In(_, _, above) => datum_named(alloc, above, name),
        },
    }
}

/// The datum to which names lead from the lowest state: each name but the last is that of a child.
fn datum_below(
    alloc: Global,
    frames: &Frames<'_>,
    names: &[NameText],
) -> Result<Option<Text>, Memory>
    ensures { IfOk result (λ o. o ≡ spec.datum_below (Some (lowest_frame frames.now)) names.now) }
{
    match names {
        [] => Ok(None),
        [name] => datum_in(alloc, frames, name.text.text()),
        [name, _, ..] => match child_of(frames, name.text.text())? {
            None => Ok(None),
            Some(child) => {
                let below = Frames::In(child.state, child.number, &*frames);
                let found = datum_below(alloc, &below, &names[1..])?;
                Ok(found)
            }
        },
    }
}

/// The datum to which names lead from the child of that name of the first state that has one.
#[tactic(auto, using(crate::proofs::DatumLemmas::child_steps))]
fn datum_in_child(
    alloc: Global,
    frames: &Frames<'_>,
    name: &NameText,
    rest: &[NameText],
) -> Result<Option<Text>, Memory>
    ensures { IfOk result (λ o. o
        ≡ spec.datum_below (spec.state_named (frames_of frames.now) name.now.text) rest.now) }
{
    match child_of(frames, name.text.text())? {
        Some(child) => {
            let below = Frames::In(child.state, child.number, &*frames);
            let found = datum_below(alloc, &below, rest)?;
            Ok(found)
        }
        None => match frames {
            Frames::Root(_) => Ok(None),
            Frames::In(_, _, above) => datum_in_child(alloc, above, name, rest),
        },
    }
}

/// The datum that a path denotes: `x`, or `S.x`.
#[tactic(auto, using(crate::proofs::DatumLemmas::path_steps))]
pub fn path_datum(
    alloc: Global,
    frames: &Frames<'_>,
    path: &[NameText],
) -> Result<Option<Text>, Memory>
    ensures { IfOk result (λ o. o ≡ spec.path_datum (frames_of frames.now) path.now) }
{
    match path {
        [] => Ok(None),
        [name] => datum_named(alloc, frames, name.text.text()),
        [name, _, ..] => {
            let found = datum_in_child(alloc, frames, name, &path[1..])?;
            Ok(found)
        }
    }
}
