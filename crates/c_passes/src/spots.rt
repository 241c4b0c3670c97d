//! The places of the struct of which something may be known: numbers of children and flags of states.
ghost use Rattle.std.specs.Prelude.{◌<◌};
ghost use Rattle.active_config.specs.Tree.{state_count};
ghost use Rattle.c_shape.specs.FileShapes.{shape_seen};

use c_fact_search::Spot;
use c_facts::{Home, Place};
use c_shape::FileShape;
use c_subset::Width;
use flow_base::Memory;
use std::alloc::Global;

/// The bit of a state.
fn bit_of(shape: &FileShape<'_>, state: u32) -> Place
    requires { state < state_count (shape_seen shape.now).tree }
{
    Place::Bit(shape.word_field(state), state % 32)
}

/// Where it stands that a state is active: in the number of the active child of the OR above it, or
/// else in its bit.
fn activity(shape: &FileShape<'_>, state: u32) -> Home
    requires { state < state_count (shape_seen shape.now).tree }
{
    match shape.or_parent(state) {
        Some(parent) => Home {
            place: Place::Field(shape.chosen_field(parent)),
            value: state + 1,
        },
        None => Home {
            place: bit_of(shape, state),
            value: 1,
        },
    }
}

/// The number of the active child of an OR is known where the OR is active.
fn chosen_spot(shape: &FileShape<'_>, state: u32) -> Spot
    requires { state < state_count (shape_seen shape.now).tree }
{
    Spot {
        place: Place::Field(shape.chosen_field(state)),
        width: Width::W16,
        home: activity(shape, state),
    }
}

/// The number of the child that an OR remembers is known wherever it is asked for.
fn kept_spot(shape: &FileShape<'_>, state: u32) -> Spot
    requires { state < state_count (shape_seen shape.now).tree }
{
    let place = Place::Field(shape.kept_field(state));
    Spot {
        place,
        width: Width::W16,
        home: Home { place, value: 0 },
    }
}

/// The bit of a state is known where the state above it is active, or of the whole chart everywhere.
fn flag_spot(shape: &FileShape<'_>, state: u32) -> Spot
    requires { state < state_count (shape_seen shape.now).tree }
{
    let place = bit_of(shape, state);
    let home = match shape.tree.parent(state) {
        Some(parent) => activity(shape, parent),
        None => Home { place, value: 1 },
    };
    Spot {
        place,
        width: Width::W32,
        home,
    }
}

/// All places, in the order of their fields, and those of a field in that of its bits.
pub fn spots_of(alloc: Global, shape: &FileShape<'_>) -> Result<Vec<Spot>, Memory> {
    let mut spots = Vec::new(alloc);
    for state in 0..shape.tree.len() {
        if shape.tree.comp(state).is_or() {
            spots.push(chosen_spot(shape, state))?;
        }
    }
    for state in 0..shape.tree.len() {
        if shape.tree.comp(state).is_or() {
            spots.push(kept_spot(shape, state))?;
        }
    }
    for state in 0..shape.tree.len() {
        if shape.or_parent(state).is_none() {
            spots.push(flag_spot(shape, state))?;
        }
    }
    Ok(spots)
}
