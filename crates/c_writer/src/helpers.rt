//! The functions that tell of the home, the one that calls noted procedures, and those that divide.
ghost use Rattle.std.specs.Prelude.{◌≡◌, ◌<◌, ◌∷◌, [], pos, IfOk, OnOk};
ghost use Rattle.flow_base.specs.Lists.{items_of};
ghost use Rattle.active_config.specs.Tree.{state_count};
ghost use Rattle.c_subset.specs.Helpers as helpers;
ghost use Rattle.c_subset.specs.Lines.{Appends, IsFunction, expr_of, lines_in, lines_of};
ghost use Rattle.c_subset.specs.Trees as c;
ghost use Rattle.c_functions.specs.Files as files;
ghost use Rattle.c_functions.specs.Plans as spec;
ghost use Rattle.c_shape.specs.FileShapes.{shape_seen};
ghost use Rattle.c_writer.specs.Homes as homes;
ghost use Rattle.c_writer.specs.Homes.{home_case, test_at};

use crate::calls::five;
use crate::pieces::{local, put_return};
use c_expression_writer::put;
use c_functions::WORD;
use c_shape::{FileShape, number};
use c_subset::{Arithmetic, CExpr, CType, Case, Comparison, Division, Function, Line, Width};
use flow_base::{List, Memory};
use std::alloc::Global;

/// What a function tells of the state that is its argument.
#[derive(Clone, Copy, PartialEq, Eq)]
pub enum Home {
    /// Whether it is active.
    On,
    /// Whether it is active and none of its children is.
    Bare,
}

/// One parameter.
pub(crate) fn one_word(alloc: Global) -> Result<List<CType>, Memory>
    ensures { IfOk result (λ list. items_of list ≡ spec.word ∷ []) }
{
    let list = vec![in alloc; WORD]?;
    Ok(List::of(list))
}

/// Six parameters.
fn six_words(alloc: Global) -> Result<List<CType>, Memory>
    ensures { IfOk result (λ list. items_of list
        ≡ spec.word ∷ spec.word ∷ spec.word ∷ spec.word ∷ spec.word ∷ spec.word ∷ []) }
{
    let list = vec![in alloc; WORD, WORD, WORD, WORD, WORD, WORD]?;
    Ok(List::of(list))
}

// ---- the home

/// The test of a state.
fn home_test(alloc: Global, shape: &FileShape<'_>, home: Home, state: u32) -> Result<CExpr, Memory>
    requires { state < state_count (shape_seen shape.now).tree }
    ensures { IfOk result (λ test. expr_of test ≡ test_at (shape_seen shape.now) home state) }
{
    match home {
        Home::On => shape.on_test(alloc, state),
        Home::Bare => shape.bare_test(alloc, state),
    }
}

/// Appends a return of the test of a state, where the argument is that state.
#[tactic(auto, unfolding(c_subset::specs::Lines::lines_of))]
fn put_home_case(
    alloc: Global,
    shape: &FileShape<'_>,
    lines: &mut List<Line>,
    home: Home,
    state: u32,
) -> Result<(), Memory>
    requires { state < state_count (shape_seen shape.now).tree }
    ensures { OnOk result (Appends (items_of lines.old) (items_of lines.new)
        (home_case (shape_seen shape.now) home state)) }
{
    let is_state = CExpr::compare(alloc, Comparison::IsEqual, local(0), number(state))?;
    put(lines, Line::If(is_state))?;
    put_return(lines, home_test(alloc, shape, home, state)?)?;
    put(lines, Line::Close)
}

/// The lines of a function that tells of a state.
fn home_lines(alloc: Global, shape: &FileShape<'_>, home: Home) -> Result<List<Line>, Memory>
    ensures { IfOk result (λ lines. lines_in (items_of lines) ≡ lines_of
        (files.home_function (shape_seen shape.now) (test_at (shape_seen shape.now) home)).body) }
{
    let mut lines = List::of(Vec::new(alloc));
    for state in 0..shape.tree.len() {
        put_home_case(alloc, shape, &mut lines, home, state)?;
    }
    put_return(&mut lines, CExpr::Const(CType::Truth, 0))?;
    Ok(lines)
}

/// The function that tells of a state.
pub fn home_function(alloc: Global, shape: &FileShape<'_>, home: Home) -> Result<Function, Memory>
    ensures { IfOk result (λ function. IsFunction function
        (files.home_function (shape_seen shape.now) (test_at (shape_seen shape.now) home))) }
{
    let parameters = one_word(alloc)?;
    let lines = home_lines(alloc, shape, home)?;
    Ok(Function {
        result: CType::Truth,
        parameters,
        lines,
    })
}

// ---- the notes

/// A case for each noted procedure.
fn cases(alloc: Global, noted: &[u32]) -> Result<List<Case>, Memory>
    ensures { IfOk result (λ cases. items_of cases ≡ spec.cases_of noted.now) }
{
    let mut cases = List::of(Vec::new(alloc));
    for procedure in noted {
        cases.push(Case {
            label: *procedure,
            function: *procedure,
        })?;
    }
    Ok(cases)
}

/// The lines of the function that calls a noted procedure.
#[tactic(auto, unfolding(c_subset::specs::Lines::lines_of))]
fn noted_lines(alloc: Global, shape: &FileShape<'_>) -> Result<List<Line>, Memory>
    ensures { IfOk result (λ lines. lines_in (items_of lines)
        ≡ lines_of (files.noted_c (shape_seen shape.now)).body) }
{
    let mut lines = List::of(Vec::new(alloc));
    let cases = cases(alloc, shape.noted.items())?;
    let arguments = five(alloc, local(0), local(1), local(2), local(3), local(4))?;
    put(
        &mut lines,
        Line::Select(WORD, 4, local(5), cases, arguments),
    )?;
    put_return(&mut lines, local(4))?;
    Ok(lines)
}

/// The function that calls a noted procedure.
pub fn noted_caller(alloc: Global, shape: &FileShape<'_>) -> Result<Function, Memory>
    ensures { IfOk result (λ function.
        IsFunction function (files.noted_c (shape_seen shape.now))) }
{
    let parameters = six_words(alloc)?;
    let lines = noted_lines(alloc, shape)?;
    Ok(Function {
        result: WORD,
        parameters,
        lines,
    })
}

// ---- quotients

/// A division of the first parameter by the second one.
fn divided(alloc: Global, kind: CType, op: Division) -> Result<CExpr, Memory>
    ensures { IfOk result (λ expr.
        expr_of expr ≡ c.Divide op (c.Local kind 0) (c.Local kind 1)) }
{
    CExpr::divide(alloc, op, CExpr::Local(kind, 0), CExpr::Local(kind, 1))
}

/// Whether a parameter is below 0.
fn is_negative(alloc: Global, kind: CType, place: u32) -> Result<CExpr, Memory>
    ensures { IfOk result (λ expr. expr_of expr
        ≡ c.Compare homes.below (c.Local kind place) (c.Const kind (pos 0))) }
{
    CExpr::compare(
        alloc,
        Comparison::IsBelow,
        CExpr::Local(kind, place),
        CExpr::Const(kind, 0),
    )
}

/// Whether a quotient that isn't whole is below 0.
fn is_low(alloc: Global, kind: CType) -> Result<CExpr, Memory>
    ensures { IfOk result (λ expr. expr_of expr
        ≡ helpers.is_low (c.Local kind 0) (c.Local kind 1) (c.Const kind (pos 0))) }
{
    let rest = divided(alloc, kind, Division::Remainder)?;
    let some = CExpr::compare(alloc, Comparison::IsUnequal, rest, CExpr::Const(kind, 0))?;
    let apart = signs_differ(alloc, kind)?;
    CExpr::both(alloc, some, apart)
}

/// Whether one parameter is below 0 and the other isn't.
fn signs_differ(alloc: Global, kind: CType) -> Result<CExpr, Memory>
    ensures { IfOk result (λ expr. expr_of expr
        ≡ homes.signs_differ (c.Local kind 0) (c.Local kind 1)
        (c.Const kind (pos 0))) }
{
    let left = is_negative(alloc, kind, 0)?;
    let right = is_negative(alloc, kind, 1)?;
    CExpr::compare(alloc, Comparison::IsUnequal, left, right)
}

/// The greatest whole number that is at most the quotient of the parameters.
fn floor(alloc: Global, kind: CType) -> Result<CExpr, Memory>
    ensures { IfOk result (λ expr. expr_of expr ≡ homes.floor kind) }
{
    let quotient = divided(alloc, kind, Division::Quotient)?;
    let lower = CExpr::calc(alloc, Arithmetic::Less, quotient, CExpr::Const(kind, 1))?;
    let whole = divided(alloc, kind, Division::Quotient)?;
    let low = is_low(alloc, kind)?;
    CExpr::choose(alloc, kind, low, lower, whole)
}

/// Two parameters of a type.
fn two(alloc: Global, kind: CType) -> Result<List<CType>, Memory>
    ensures { IfOk result (λ list. items_of list ≡ kind ∷ kind ∷ []) }
{
    let list = vec![in alloc; kind, kind]?;
    Ok(List::of(list))
}

/// The function that divides numbers of a width.
pub fn floor_function(alloc: Global, width: Width) -> Result<Function, Memory>
    ensures { IfOk result (λ function. IsFunction function (helpers.floor_function width)) }
{
    let kind = CType::Signed(width);
    let parameters = two(alloc, kind)?;
    let mut lines = List::of(Vec::new(alloc));
    put_return(&mut lines, floor(alloc, kind)?)?;
    Ok(Function {
        result: kind,
        parameters,
        lines,
    })
}
