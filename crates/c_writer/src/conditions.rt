//! Tests of states, and what is written for conditions.
ghost use Rattle.std.specs.Prelude.{◌≡◌, ◌<◌, IfOk, OnOk};
ghost use Rattle.flow_base.specs.Lists.{items_of};
ghost use Rattle.active_config.specs.Tree.{parent_of, state_count};
ghost use Rattle.code_language.specs.Code.{cond_of};
ghost use Rattle.c_subset.specs.Lines.{expr_of};
ghost use Rattle.c_functions.specs.Written as written;
ghost use Rattle.c_functions.specs.Plans.{check_c};
ghost use Rattle.c_shape.specs.FileShapes.{shape_seen};
ghost use Rattle.c_writer.specs.Appending.{TestAppends};
ghost use Rattle.c_writer.specs.Fine.{IsFineTest};

use crate::calls::{bare_function, on_function, put_ask};
use crate::pieces::local;
use active_config::Comp;
use c_expression_writer::write_test;
use c_shape::{FileShape, number};
use c_subset::{CExpr, CType, Comparison, Line};
use code_language::Cond;
use flow_base::{List, Memory};
use std::alloc::Global;

/// The test that a state is active.
pub(crate) fn on_test(alloc: Global, shape: &FileShape<'_>, state: u32) -> Result<CExpr, Memory>
    requires { state < state_count (shape_seen shape.now).tree }
    ensures { IfOk result (λ test. expr_of test ≡ check_c (shape_seen shape.now)
        (written.on_check (shape_seen shape.now).tree (shape_seen shape.now).numbers state)) }
{
    shape.on_test(alloc, state)
}

/// The test that a state is active and none of its children is.
pub(crate) fn bare_test(alloc: Global, shape: &FileShape<'_>, state: u32) -> Result<CExpr, Memory>
    requires { state < state_count (shape_seen shape.now).tree }
    ensures { IfOk result (λ test. expr_of test ≡ check_c (shape_seen shape.now)
        (written.bare_check (shape_seen shape.now).tree (shape_seen shape.now).numbers state)) }
{
    shape.bare_test(alloc, state)
}

/// The test that the parent of a state remembers it.
fn last_test(alloc: Global, shape: &FileShape<'_>, state: u32) -> Result<CExpr, Memory>
    requires { state < state_count (shape_seen shape.now).tree }
    ensures { IfOk result (λ test. expr_of test ≡ check_c (shape_seen shape.now)
        (written.last_under (shape_seen shape.now).numbers state
        (parent_of (shape_seen shape.now).tree state))) }
{
    match shape.tree.parent(state) {
        Some(parent) => shape.last_test(alloc, parent, state),
        None => Ok(CExpr::Const(CType::Truth, 0)),
    }
}

/// The test that the parent of a state takes it as an active child.
pub(crate) fn takes_test(alloc: Global, shape: &FileShape<'_>, state: u32) -> Result<CExpr, Memory>
    requires { state < state_count (shape_seen shape.now).tree }
    ensures { IfOk result (λ test. expr_of test ≡ check_c (shape_seen shape.now)
        (written.takes_check (shape_seen shape.now).tree (shape_seen shape.now).numbers
        (parent_of (shape_seen shape.now).tree state))) }
{
    let Some(parent) = shape.tree.parent(state) else {
        return Ok(CExpr::Const(CType::Truth, 1));
    };
    match shape.tree.comp(parent) {
        Comp::Or => bare_test(alloc, shape, parent),
        Comp::Leaf | Comp::And => on_test(alloc, shape, parent),
    }
}

/// Appends what a condition needs before it is tested, and gives the test.
#[tactic(auto, unfolding(code_language::specs::WellFormed::cond_known))]
pub(crate) fn put_condition(
    alloc: Global,
    shape: &FileShape<'_>,
    lines: &mut List<Line>,
    cond: &Cond,
) -> Result<CExpr, Memory>
    requires { IsFineTest (shape_seen shape.now) (cond_of cond.now) }
    ensures { IfOk result (λ test. TestAppends (shape_seen shape.now) (items_of lines.old)
        (items_of lines.new)
        (written.test_of (shape_seen shape.now).tree (shape_seen shape.now).numbers
        (cond_of cond.now)) (expr_of test)) }
{
    match cond {
        Cond::On(state) => on_test(alloc, shape, *state),
        Cond::Bare(state) => bare_test(alloc, shape, *state),
        Cond::OnHome => {
            put_ask(alloc, lines, on_function(shape))?;
            Ok(CExpr::Local(CType::Truth, 6))
        }
        Cond::BareHome => {
            put_ask(alloc, lines, bare_function(shape))?;
            Ok(CExpr::Local(CType::Truth, 6))
        }
        Cond::Current(event) => {
            CExpr::compare(alloc, Comparison::IsEqual, local(0), number(*event))
        }
        Cond::Result(value) => {
            CExpr::compare(alloc, Comparison::IsEqual, local(4), number(*value))
        }
        Cond::Test(expr) => write_test(alloc, shape, lines, expr),
        Cond::Last(state) => last_test(alloc, shape, *state),
    }
}
