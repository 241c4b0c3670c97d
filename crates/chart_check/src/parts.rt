//! The parts of the chart for which a resolved chart stands.
ghost use Rattle.std.specs.Prelude.{◌≡◌, IfOk, map};
ghost use Rattle.std.specs.List.{AllByRecursion};
ghost use Rattle.std.specs.Option.{option_map};
ghost use Rattle.flow_base.specs.Lists.{items_of};
ghost use Rattle.actions.specs.Names.{names_of};
ghost use Rattle.actions.specs.Trees as seen;
ghost use Rattle.resolved_tree.specs.Plain as plain;
ghost use Rattle.resolved_tree.specs.Promise.{
  IfThere,
  IsExpr,
  IsTrans,
  AreTrans,
  IsStateOf,
  KeepsPromise,
};
ghost use Rattle.resolved_tree.specs.Resolved as trees;
ghost use Rattle.resolved_tree.specs.Resolved.{Guard, Junction};
ghost use Rattle.resolved_tree.specs.Views.{
  guard_of,
  trans_of,
  list_of,
  junction_of,
  state_of,
  resolved_of,
};
ghost use Rattle.checked_chart.specs.Views.{trans_seen, list_seen, node_seen, chart_seen};

use crate::expressions::{plain_block, plain_expr};
use crate::inits::with_inits;
use crate::resolved_net::plain_dest;
use actions::{Expr, Names};
use active_config::Shape;
use checked_chart::{StateParts, Trans};
use flow_base::{List, Memory};
use resolved_tree::{Ref, Resolved, ResolvedGuard, ResolvedJunction, ResolvedState, ResolvedTrans};
use std::alloc::{AllocError, Global};

/// The number of an event, where there is one.
fn event_number(event: Option<Ref>) -> Option<u32>
    ensures { result ≡ option_map (λ r. r.number) event }
{
    match event {
        None => None,
        Some(event) => Some(event.number),
    }
}

/// A guard without its places, where there is one.
fn plain_guard(alloc: Global, guard: &Option<ResolvedGuard>) -> Result<Option<Expr>, AllocError>
    requires { (r : trees.Resolved)
        × IfThere (λ (g : Guard). IsExpr r g.expr) (option_map guard_of guard.now) }
    ensures { IfOk result (λ made. option_map seen.expr_of made
        ≡ option_map (λ (g : Guard). plain.plain_expr g.expr) (option_map guard_of guard.now)) }
{
    match guard {
        None => Ok(None),
        Some(guard) => Ok(Some(plain_expr(alloc, &guard.expr)?)),
    }
}

/// A transition without its places.
fn plain_trans(alloc: Global, trans: &ResolvedTrans) -> Result<Trans, AllocError>
    requires { (r : trees.Resolved) × IsTrans r (trans_of trans.now) }
    ensures { IfOk result (λ made. trans_seen made ≡ plain.plain_trans (trans_of trans.now)) }
{
    Ok(Trans {
        event: event_number(trans.event),
        guard: plain_guard(alloc, &trans.guard)?,
        cond: plain_block(alloc, &trans.cond)?,
        act: plain_block(alloc, &trans.act)?,
        dest: plain_dest(trans.dest),
    })
}

/// Transitions without their places.
fn plain_list(alloc: Global, list: &List<ResolvedTrans>) -> Result<Vec<Trans>, AllocError>
    requires { (r : trees.Resolved) × AreTrans r (list_of (items_of list.now)) }
    ensures { IfOk result (λ made. list_seen made.items
        ≡ plain.plain_list (list_of (items_of list.now))) }
{
    let mut made = Vec::new(alloc);
    for trans in list.items() {
        made.push(plain_trans(alloc, trans)?)?;
    }
    Ok(made)
}

/// What a state does.
fn plain_node(alloc: Global, state: &ResolvedState) -> Result<StateParts, AllocError>
    requires { (r : trees.Resolved) × IsStateOf r (state_of state.now) }
    ensures { IfOk result (λ made. node_seen made ≡ plain.plain_node (state_of state.now)) }
{
    Ok(StateParts {
        entry: plain_block(alloc, &state.entry)?,
        during: plain_block(alloc, &state.during)?,
        exit: plain_block(alloc, &state.exit)?,
        outer: List::of(plain_list(alloc, &state.outer)?),
        inner: List::of(plain_list(alloc, &state.inner)?),
        default: List::of(plain_list(alloc, &state.default)?),
        history: state.history.is_some(),
    })
}

/// What each state does.
fn plain_nodes(alloc: Global, states: &[ResolvedState]) -> Result<Vec<StateParts>, AllocError>
    requires { (r : trees.Resolved) × AllByRecursion (IsStateOf r) (map state_of states.now) }
    ensures { IfOk result (λ made. map node_seen made.items
        ≡ map plain.plain_node (map state_of states.now)) }
{
    let mut made = Vec::new(alloc);
    for state in states {
        made.push(plain_node(alloc, state)?)?;
    }
    Ok(made)
}

/// The lists of the junctions.
fn plain_junctions(
    alloc: Global,
    junctions: &[ResolvedJunction],
) -> Result<Vec<Vec<Trans>>, AllocError>
    requires { (r : trees.Resolved)
        × AllByRecursion (λ (j : Junction). AreTrans r j.list) (map junction_of junctions.now) }
    ensures { IfOk result (λ made. map (λ j. list_seen j.items) made.items
        ≡ map (λ (j : Junction). plain.plain_list j.list) (map junction_of junctions.now)) }
{
    let mut made = Vec::new(alloc);
    for junction in junctions {
        made.push(plain_list(alloc, &junction.list)?)?;
    }
    Ok(made)
}

/// The parts of a chart.
#[derive(Drop)]
pub struct ChartParts {
    /// The tree of the states.
    pub shape: Shape,
    /// What it declares.
    pub names: Names,
    /// What each state does, in pre-order.
    pub states: Vec<StateParts>,
    /// The lists of the junctions.
    pub junctions: Vec<Vec<Trans>>,
}

/// The parts of the chart for which a resolved chart stands.
fn build(alloc: Global, resolved: Resolved) -> Result<ChartParts, AllocError>
    requires { KeepsPromise (resolved_of resolved) }
    ensures { IfOk result (λ parts. chart_seen parts.shape (names_of parts.names) parts.states.items
        (map (λ j. j.items) parts.junctions.items) ≡ plain.chart_of (resolved_of resolved)) }
{
    let nodes = plain_nodes(alloc, resolved.states.items())?;
    let lists = plain_junctions(alloc, resolved.junctions.items())?;
    let vars = with_inits(alloc, resolved.names.vars.items(), resolved.inits.items())?;
    let Resolved { shape, names, .. } = resolved;
    let Names { states, events, .. } = names;
    Ok(ChartParts {
        shape,
        names: Names {
            states,
            vars,
            events,
        },
        states: nodes,
        junctions: lists,
    })
}

/// The parts of the chart for which a resolved chart stands. The resolved chart is dropped.
///
/// Fails only where memory does.
pub fn chart_parts(alloc: Global, resolved: Resolved) -> Result<ChartParts, Memory>
    requires { KeepsPromise (resolved_of resolved) }
    ensures { IfOk result (λ parts. chart_seen parts.shape (names_of parts.names) parts.states.items
        (map (λ j. j.items) parts.junctions.items) ≡ plain.chart_of (resolved_of resolved)) }
{
    Ok(build(alloc, resolved)?)
}
