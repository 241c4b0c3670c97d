//! What is written for instructions that change a state.
ghost use Rattle.std.specs.Prelude.{◌≡◌, ◌<◌, ◌^◌, ◌%◌, ◌++◌, pos, true, false, OnOk};
ghost use Rattle.flow_base.specs.Lists.{items_of};
ghost use Rattle.active_config.specs.Tree.{parent_of, state_count};
ghost use Rattle.c_subset.specs.Lines.{Appends, expr_of, lines_in, lines_of};
ghost use Rattle.c_subset.specs.Trees as c;
ghost use Rattle.c_functions.specs.Written.{keep_block};
ghost use Rattle.c_functions.specs.Layout.{put_bit};
ghost use Rattle.c_functions.specs.Plans.{layout, plan_c};
ghost use Rattle.c_shape.specs.FileShapes.{shape_seen};
ghost use Rattle.c_writer.specs.Appending.{PlanAppends};
ghost use Rattle.c_writer.specs.Changes.{child_type, clear_plan, mark_plan, set_plan, unset_plan};

use crate::conditions::{bare_test, takes_test};
use crate::pieces::put_store;
use c_expression_writer::put;
use c_shape::{FileShape, number};
use c_subset::{Bitwise, CExpr, CType, Line, Width};
use flow_base::{List, Memory};
use std::alloc::Global;

/// The number of a child of an OR, 0 for none.
fn child(value: u32) -> CExpr
    ensures { expr_of result ≡ c.Const child_type (pos value) }
{
    CExpr::Const(CType::Unsigned(Width::W16), i128::from(value))
}

/// The bit of a state in its word.
fn bit(state: u32) -> u32
    ensures { result ≡ 2 ^ (state % 32) }
{
    1 << (state % 32)
}

/// Appends that the bit of a state is set.
fn put_bit_on(
    alloc: Global,
    shape: &FileShape<'_>,
    lines: &mut List<Line>,
    state: u32,
) -> Result<(), Memory>
    requires { state < state_count (shape_seen shape.now).tree }
    ensures { OnOk result (Appends (items_of lines.old) (items_of lines.new)
        (put_bit (layout (shape_seen shape.now)) state true)) }
{
    let word = shape.word_field(state);
    let set = number(bit(state));
    let value = CExpr::bits(alloc, Bitwise::BitOr, CExpr::Field(word), set)?;
    put_store(lines, word, value)
}

/// Appends that the bit of a state is cleared.
fn put_bit_off(
    alloc: Global,
    shape: &FileShape<'_>,
    lines: &mut List<Line>,
    state: u32,
) -> Result<(), Memory>
    requires { state < state_count (shape_seen shape.now).tree }
    ensures { OnOk result (Appends (items_of lines.old) (items_of lines.new)
        (put_bit (layout (shape_seen shape.now)) state false)) }
{
    let word = shape.word_field(state);
    let others = number(u32::MAX - bit(state));
    let value = CExpr::bits(alloc, Bitwise::BitAnd, CExpr::Field(word), others)?;
    put_store(lines, word, value)
}

/// Appends that a state becomes active.
fn put_set_state(
    alloc: Global,
    shape: &FileShape<'_>,
    lines: &mut List<Line>,
    state: u32,
) -> Result<(), Memory>
    requires { state < state_count (shape_seen shape.now).tree }
    ensures { OnOk result (lines_in (items_of lines.new) ≡ lines_in (items_of lines.old)
        ++ lines_of (plan_c (shape_seen shape.now) (set_plan (shape_seen shape.now) state))) }
{
    match shape.or_parent(state) {
        Some(parent) => put_store(lines, shape.chosen_field(parent), child(state + 1)),
        None => put_bit_on(alloc, shape, lines, state),
    }
}

/// Appends that a state becomes inactive.
fn put_unset_state(
    alloc: Global,
    shape: &FileShape<'_>,
    lines: &mut List<Line>,
    state: u32,
) -> Result<(), Memory>
    requires { state < state_count (shape_seen shape.now).tree }
    ensures { OnOk result (lines_in (items_of lines.new) ≡ lines_in (items_of lines.old)
        ++ lines_of (plan_c (shape_seen shape.now) (unset_plan (shape_seen shape.now) state))) }
{
    match shape.or_parent(state) {
        Some(parent) => put_store(lines, shape.chosen_field(parent), child(0)),
        None => put_bit_off(alloc, shape, lines, state),
    }
}

/// Appends that a state becomes active where its parent takes it.
#[tactic(auto, unfolding(c_subset::specs::Lines::lines_of, c_functions::specs::Plans::plan_c))]
pub(crate) fn put_mark(
    alloc: Global,
    shape: &FileShape<'_>,
    lines: &mut List<Line>,
    state: u32,
) -> Result<(), Memory>
    requires { state < state_count (shape_seen shape.now).tree }
    ensures { OnOk result (PlanAppends (shape_seen shape.now) (items_of lines.old)
        (items_of lines.new) (mark_plan (shape_seen shape.now) state)) }
{
    put(lines, Line::If(takes_test(alloc, shape, state)?))?;
    put_set_state(alloc, shape, lines, state)?;
    put(lines, Line::Close)
}

/// Appends that a state becomes inactive where it is bare.
#[tactic(auto, unfolding(c_subset::specs::Lines::lines_of, c_functions::specs::Plans::plan_c))]
pub(crate) fn put_clear(
    alloc: Global,
    shape: &FileShape<'_>,
    lines: &mut List<Line>,
    state: u32,
) -> Result<(), Memory>
    requires { state < state_count (shape_seen shape.now).tree }
    ensures { OnOk result (PlanAppends (shape_seen shape.now) (items_of lines.old)
        (items_of lines.new) (clear_plan (shape_seen shape.now) state)) }
{
    put(lines, Line::If(bare_test(alloc, shape, state)?))?;
    put_unset_state(alloc, shape, lines, state)?;
    put(lines, Line::Close)
}

/// Appends that the parent of a state remembers it.
#[tactic(auto, unfolding(c_functions::specs::Plans::plan_c))]
pub(crate) fn put_keep(
    shape: &FileShape<'_>,
    lines: &mut List<Line>,
    state: u32,
) -> Result<(), Memory>
    requires { state < state_count (shape_seen shape.now).tree }
    ensures { OnOk result (PlanAppends (shape_seen shape.now) (items_of lines.old)
        (items_of lines.new) (keep_block (shape_seen shape.now).numbers state
        (parent_of (shape_seen shape.now).tree state))) }
{
    match shape.tree.parent(state) {
        Some(parent) => put_store(lines, shape.kept_field(parent), child(state + 1)),
        None => Ok(()),
    }
}
