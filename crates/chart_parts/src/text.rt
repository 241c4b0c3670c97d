//! Words for the part of a chart that a procedure is of.
ghost use Rattle.std.specs.Prelude.{◌≡◌, ◌<◌, ◌+◌, ◌++◌, decimal, length, string_bytes, OnOk};
ghost use Rattle.active_config.specs.Tree.{IsTree, state_count};
ghost use Rattle.actions.specs.Names.{names_of};
ghost use Rattle.trace_text.specs.Trace.{path_of, state_name};
ghost use Rattle.chart_parts.specs.declared.part.Part.TheVariants as parts;
ghost use Rattle.chart_parts.specs.Parts.{IsOwner, IsPart};
ghost use Rattle.chart_parts.specs.PartText as spec;

use crate::part::{Owner, Part, Toward, TransPart};
use actions::Names;
use active_config::Shape;
use checked_chart::{BlockKind, ListKind};
use code_fields::print_number;
use std::alloc::AllocError;

// ---- words

/// Words for an action of a state.
fn block_words(kind: BlockKind) -> &'static str
    ensures { result.now ≡ spec.block_words kind }
{
    match kind {
        BlockKind::Entry => "entry action of ",
        BlockKind::During => "during action of ",
        BlockKind::Exit => "exit action of ",
    }
}

/// Words for a list of a state.
fn list_words(kind: ListKind) -> &'static str
    ensures { result.now ≡ spec.list_words kind }
{
    match kind {
        ListKind::Outer => "the outer list of ",
        ListKind::Inner => "the inner list of ",
        ListKind::Default => "the default list of ",
    }
}

/// Words for a part of a transition.
fn trans_words(part: TransPart) -> &'static str
    ensures { result.now ≡ spec.trans_words part }
{
    match part {
        TransPart::Guard => "guard of transition ",
        TransPart::ConditionOn | TransPart::ConditionBare => "condition action of transition ",
        TransPart::Action => "transition action of transition ",
    }
}

/// Words for how long a condition action goes on.
fn while_words(part: TransPart) -> &'static str
    ensures { result.now ≡ spec.while_words part }
{
    match part {
        TransPart::ConditionOn => ", while its state is active",
        TransPart::ConditionBare => ", while its state is bare",
        TransPart::Guard | TransPart::Action => "",
    }
}

/// Words for what is done in a state on the way to another.
fn way_words(way: Toward) -> &'static str
    ensures { result.now ≡ spec.way_words way }
{
    match way {
        Toward::Arrive => "arriving in ",
        Toward::Take => "taking a firing in ",
        Toward::Enter => "entering ",
    }
}

// ---- states and lists

/// Appends the path of a state. That of the root is empty.
fn append_path(out: &mut String, shape: &Shape, names: &Names, state: u32) -> Result<(), AllocError>
    requires tree { IsTree shape.now }
    requires state { state < state_count shape.now }
    requires names { length (names_of names.now).states ≡ state_count shape.now }
    ensures { OnOk result (string_bytes out.new
        ≡ string_bytes out.old ++ path_of shape.now (names_of names.now) state) }
{
    let Some(parent) = shape.parent(state) else {
        return Ok(());
    };
    append_path(out, shape, names, parent)?;
    if parent != 0 {
        out.push_str("/")?;
    }
    out.push_str(state_name(names, state))?;
    Ok(())
}

/// The name of a state.
fn state_name(names: &Names, state: u32) -> &str
    requires { state < length (names_of names.now).states }
    ensures { result.now ≡ state_name (names_of names.now) state }
{
    names.states.items()[state as usize].text()
}

/// Appends words and a state: its path, or that it is the chart.
///
/// An error only where memory was refused.
///
/// Source: this project's choice.
pub fn append_state(
    out: &mut String,
    words: &str,
    shape: &Shape,
    names: &Names,
    state: u32,
) -> Result<(), AllocError>
    requires tree { IsTree shape.now }
    requires state { state < state_count shape.now }
    requires names { length (names_of names.now).states ≡ state_count shape.now }
    ensures { OnOk result (string_bytes out.new ≡ string_bytes out.old
        ++ (words.now ++ spec.state_words shape.now (names_of names.now) state)) }
{
    out.push_str(words)?;
    if state == 0 {
        out.push_str("the chart")
    } else {
        append_path(out, shape, names, state)
    }
}

/// Appends words and a number, counted from 1.
fn append_count(out: &mut String, words: &str, number: u32) -> Result<(), AllocError>
    ensures { OnOk result (string_bytes out.new
        ≡ string_bytes out.old ++ (words.now ++ decimal (number + 1))) }
{
    print_number(out, words, u64::from(number) + 1)
}

/// Appends where a transition stands.
fn append_owner(
    out: &mut String,
    shape: &Shape,
    names: &Names,
    owner: Owner,
) -> Result<(), AllocError>
    requires tree { IsTree shape.now }
    requires owner { IsOwner shape.now owner }
    requires names { length (names_of names.now).states ≡ state_count shape.now }
    ensures { OnOk result (string_bytes out.new ≡ string_bytes out.old
        ++ spec.owner_words shape.now (names_of names.now) owner) }
{
    match owner {
        Owner::State(state, kind) => append_state(out, list_words(kind), shape, names, state),
        Owner::Junction(junction) => append_count(out, "junction ", junction),
    }
}

// ---- parts

/// Appends a part of a transition.
#[tactic(auto, unfolding(crate::specs::PartText::part_text))]
fn append_transition(
    out: &mut String,
    shape: &Shape,
    names: &Names,
    part: TransPart,
    owner: Owner,
    place: u32,
) -> Result<(), AllocError>
    requires tree { IsTree shape.now }
    requires owner { IsOwner shape.now owner }
    requires names { length (names_of names.now).states ≡ state_count shape.now }
    ensures { OnOk result (string_bytes out.new ≡ string_bytes out.old
        ++ spec.part_text shape.now (names_of names.now) (parts.Transition part owner place)) }
{
    append_count(out, trans_words(part), place)?;
    out.push_str(" of ")?;
    append_owner(out, shape, names, owner)?;
    out.push_str(while_words(part))
}

/// Appends work in a state on the way to another.
#[tactic(auto, unfolding(crate::specs::PartText::part_text))]
fn append_way(
    out: &mut String,
    shape: &Shape,
    names: &Names,
    way: Toward,
    state: u32,
    dest: u32,
) -> Result<(), AllocError>
    requires tree { IsTree shape.now }
    requires state { state < state_count shape.now }
    requires dest { dest < state_count shape.now }
    requires names { length (names_of names.now).states ≡ state_count shape.now }
    ensures { OnOk result (string_bytes out.new ≡ string_bytes out.old
        ++ spec.part_text shape.now (names_of names.now) (parts.Way way state dest)) }
{
    append_state(out, way_words(way), shape, names, state)?;
    if state != dest {
        append_state(out, " on the way to ", shape, names, dest)?;
    }
    Ok(())
}

/// Appends the search of a junction from a list of a state.
#[tactic(auto, unfolding(crate::specs::PartText::part_text))]
fn append_junction(
    out: &mut String,
    shape: &Shape,
    names: &Names,
    state: u32,
    kind: ListKind,
    junction: u32,
) -> Result<(), AllocError>
    requires tree { IsTree shape.now }
    requires state { state < state_count shape.now }
    requires names { length (names_of names.now).states ≡ state_count shape.now }
    ensures { OnOk result (string_bytes out.new ≡ string_bytes out.old
        ++ spec.part_text shape.now (names_of names.now) (parts.Junction state kind junction)) }
{
    append_count(out, "search of junction ", junction)?;
    out.push_str(" from ")?;
    append_state(out, list_words(kind), shape, names, state)?;
    Ok(())
}

/// Appends words for a part of a chart, in one line, without a newline. States stand by their path,
/// the root as the chart; transitions of a list and junctions are counted from 1. The chart is
/// given by its tree and its names.
///
/// An error only where memory was refused.
///
/// Source: this project's choice.
#[tactic(auto, unfolding(crate::specs::PartText::part_text))]
pub fn append_part(
    out: &mut String,
    shape: &Shape,
    names: &Names,
    part: Part,
) -> Result<(), AllocError>
    requires tree { IsTree shape.now }
    requires states { IsPart shape.now part }
    requires names { length (names_of names.now).states ≡ state_count shape.now }
    ensures { OnOk result (string_bytes out.new
        ≡ string_bytes out.old ++ spec.part_text shape.now (names_of names.now) part) }
{
    match part {
        Part::EndMark => out.push_str("end of a search at an empty junction"),
        Part::Block(state, kind) => append_state(out, block_words(kind), shape, names, state),
        Part::Transition(part, owner, place) => {
            append_transition(out, shape, names, part, owner, place)
        }
        Part::Leave(state) => append_state(out, "leaving the children of ", shape, names, state),
        Part::Exit(state) => append_state(out, "leaving ", shape, names, state),
        Part::Way(way, state, dest) => append_way(out, shape, names, way, state, dest),
        Part::Search(state, kind) => {
            out.push_str("search of ")?;
            append_state(out, list_words(kind), shape, names, state)
        }
        Part::Junction(state, kind, junction) => {
            append_junction(out, shape, names, state, kind, junction)
        }
        Part::Defaults(state) => {
            append_state(out, "entering a child of ", shape, names, state)?;
            out.push_str(" by default")
        }
        Part::Process(state) => append_state(out, "processing ", shape, names, state),
    }
}
