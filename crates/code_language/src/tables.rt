//! Whether what code declares could be a chart's.
ghost use Rattle.std.specs.Prelude.{◌≡◌, ◌<◌, ◌≤◌, ◌↔◌, Err, IfOk, IfSome, IsTrue, is_some, length, map};
ghost use Rattle.std.specs.List.{list_all};
ghost use Rattle.flow_base.specs.Lists.{items_of};
ghost use Rattle.actions.specs.Data.{is_mantissa_of};
ghost use Rattle.active_config.specs.Tree.{IsTree, state_count, ancestors};
ghost use Rattle.chart_lexer.specs.Words as words;
ghost use Rattle.code_language.specs.Code.{code_of, tree_of_states};
ghost use Rattle.code_language.specs.Acceptance as spec;
ghost use Rattle.code_language.specs.Tables.{IsTable};

use crate::code::{RawCode, RawState};
use crate::repeats::{are_names_distinct, has_no_twins};
use actions::{EventDecl, Sort, Var};
use active_config::{Comp, Shape, ShapeFault};
use chart_lexer::is_name;
use fixed_point::{Mode, Num, exact};
use flow_base::Memory;
use flow_base::chart_limits::{EVENT_LIMIT, STATE_DEPTH_LIMIT, STATE_LIMIT, VARIABLE_LIMIT};
use std::alloc::{AllocError, Global};

/// The tree of the states, where what the code declares of states, data and events could be a
/// chart's; none where it couldn't.
pub fn table_shape(alloc: Global, raw: &RawCode) -> Result<Option<Shape>, Memory>
    ensures shape { IfOk result (λ found. IfSome found (λ shape. shape ≡ (code_of raw.now).tree)) }
    ensures table { IfOk result (λ found. IsTrue (is_some found)
        ↔ IsTable (code_of raw.now).tree (code_of raw.now).names) }
{
    let vars = raw.vars.items();
    let events = raw.events.items();
    if !is_declared(raw) || !are_names_distinct(alloc, vars, events)? {
        return Ok(None);
    }
    states_shape(alloc, raw.states.items())
}

/// Whether what is declared keeps to all that is neither about the tree of states nor about names
/// that stand twice.
fn is_declared(raw: &RawCode) -> bool
    ensures { result ≡ spec.is_declared raw.now }
{
    has_few(raw) && has_names(raw) && are_values(raw.vars.items())
}

/// Whether there are few enough states, data and events.
fn has_few(raw: &RawCode) -> bool
    ensures { result ≡ spec.are_few (length (items_of raw.now.states)) (length (items_of raw.now.vars))
        (length (items_of raw.now.events)) }
{
    raw.states.items().len() <= STATE_LIMIT as usize
        && raw.vars.items().len() <= VARIABLE_LIMIT as usize
        && raw.events.items().len() <= EVENT_LIMIT as usize
}

/// Whether every name is a NAME.
fn has_names(raw: &RawCode) -> bool
    ensures { result ≡ spec.are_names (items_of raw.now.states) (items_of raw.now.vars)
        (items_of raw.now.events) }
{
    are_state_names(raw.states.items())
        && are_var_names(raw.vars.items())
        && are_event_names(raw.events.items())
}

/// Whether each state's name is a NAME.
fn are_state_names(states: &[RawState]) -> bool
    ensures { result ≡ list_all (λ (s : RawState). words.is_name s.name) states.now }
{
    states
        .iter()
        .all(|state| is_name(state.name.text().as_bytes()))
}

/// Whether each datum's name is a NAME.
fn are_var_names(vars: &[Var]) -> bool
    ensures { result ≡ list_all (λ (v : Var). words.is_name v.name) vars.now }
{
    vars.iter().all(|var| is_name(var.name.text().as_bytes()))
}

/// Whether each event's name is a NAME.
fn are_event_names(events: &[EventDecl]) -> bool
    ensures { result ≡ list_all (λ (e : EventDecl). words.is_name e.name) events.now }
{
    events
        .iter()
        .all(|event| is_name(event.name.text().as_bytes()))
}

/// Whether the first value of each datum is of its sort, and no flag has a mode of its own.
fn are_values(vars: &[Var]) -> bool
    ensures { result ≡ list_all spec.has_value vars.now }
{
    vars.iter().all(|var| is_value(var.sort, var.init) && is_flag_mode(var.sort, var.mode))
}

/// Whether a mantissa is one of a value of the sort.
fn is_value(sort: Sort, mantissa: i128) -> bool
    ensures { result ≡ is_mantissa_of sort mantissa }
{
    match sort {
        Sort::Flag => 0 <= mantissa && mantissa <= 1,
        Sort::Number(scale) => {
            let frac = u32::from(scale.frac);
            exact(Num { mantissa, frac }, scale).is_some()
        }
    }
}

/// Whether a datum of the sort may have the mode: a flag has none of its own.
fn is_flag_mode(sort: Sort, mode: Mode) -> bool
    ensures { result ≡ spec.is_flag_mode sort mode }
{
    match (sort, mode) {
        (Sort::Flag, Mode::Saturate) | (Sort::Number(_), _) => true,
        (Sort::Flag, Mode::Wrap | Mode::Error) => false,
    }
}

/// The tree of the states, where they are one, none is too deep, and siblings have different names;
/// none where it isn't so.
fn states_shape(alloc: Global, states: &[RawState]) -> Result<Option<Shape>, Memory>
    requires { length states.now ≤ STATE_LIMIT }
    ensures shape { IfOk result (λ found. IfSome found (λ shape. shape ≡ tree_of_states states.now)) }
    ensures states { IfOk result (λ found. IsTrue (is_some found) ↔ spec.AreStates states.now) }
{
    if !has_parents(states) || !has_no_twins(alloc, states)? {
        return Ok(None);
    }
    match shape_of(alloc, states) {
        Ok(shape) => {
            if is_shallow(&shape) {
                Ok(Some(shape))
            } else {
                Ok(None)
            }
        }
        Err(ShapeFault::NotATree) => Ok(None),
        Err(ShapeFault::Memory) => Err(Memory),
    }
}

/// The tree of states that are one, and not too many.
pub fn tree_shape(alloc: Global, states: &[RawState]) -> Result<Shape, Memory>
    requires short { length states.now ≤ STATE_LIMIT }
    requires tree { IsTree (tree_of_states states.now) }
    ensures { IfOk result (λ shape. shape ≡ tree_of_states states.now) }
{
    match shape_of(alloc, states) {
        Ok(shape) => Ok(shape),
        Err(ShapeFault::Memory) => Err(Memory),
        // The states are a tree.
        Err(ShapeFault::NotATree) => unreachable!(),
    }
}

/// Whether the first state has no parent, and every other one has one.
fn has_parents(states: &[RawState]) -> bool
    ensures { result ≡ spec.has_parents states.now }
{
    match states {
        [first, rest @ ..] => first.parent.is_none() && have_parents(rest),
        [] => false,
    }
}

/// Whether each of the states has a parent.
fn have_parents(states: &[RawState]) -> bool
    ensures { result ≡ list_all (λ (s : RawState). is_some s.parent) states.now }
{
    states.iter().all(|state| state.parent.is_some())
}

/// The shape of states of which all but the first have a parent.
fn shape_of(alloc: Global, states: &[RawState]) -> Result<Shape, ShapeFault>
    requires short { length states.now ≤ STATE_LIMIT }
    requires parents { IsTrue (spec.has_parents states.now) }
    ensures shape { IfOk result (λ shape. (shape ≡ tree_of_states states.now) × IsTree shape) }
    ensures not_a_tree { (result ≡ Err ShapeFault.NotATree) → ¬ IsTree (tree_of_states states.now) }
{
    let parents = parents_of(alloc, states)?;
    let comps = comps_of(alloc, states)?;
    Shape::make(alloc, parents, comps)
}

/// The parent of each state, 0 where it has none.
fn parents_of(alloc: Global, states: &[RawState]) -> Result<Vec<u32>, AllocError>
    ensures { IfOk result (λ parents. parents.items ≡ map spec.parent_or_0 states.now) }
{
    let mut parents = Vec::with_capacity(alloc, states.len())?;
    for state in states {
        parents.push(state.parent.unwrap_or(0))?;
    }
    Ok(parents)
}

/// How each state is composed.
fn comps_of(alloc: Global, states: &[RawState]) -> Result<Vec<Comp>, AllocError>
    ensures { IfOk result (λ comps. comps.items ≡ map spec.comp_written states.now) }
{
    let mut comps = Vec::with_capacity(alloc, states.len())?;
    for state in states {
        comps.push(state.comp)?;
    }
    Ok(comps)
}

/// Whether no state is too deep.
fn is_shallow(shape: &Shape) -> bool
    ensures { IsTrue result ↔ spec.IsShallow shape.now }
{
    for state in 0..shape.len() {
        if depth(shape, state) > STATE_DEPTH_LIMIT {
            return false;
        }
    }
    true
}

/// How deep a state is: the root has depth 0.
fn depth(shape: &Shape, state: u32) -> u32
    requires tree { IsTree shape.now }
    requires state { state < state_count shape.now }
    ensures { result ≡ length (ancestors shape.now state) }
{
    let mut depth = 0;
    let mut at = state;
    while let Some(parent) = shape.parent(at) {
        depth += 1;
        at = parent;
    }
    depth
}
