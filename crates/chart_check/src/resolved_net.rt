//! The net of a resolved chart.
ghost use Rattle.std.specs.Prelude.{◌≡◌, IfOk, map};
ghost use Rattle.flow_base.specs.Lists.{items_of};
ghost use Rattle.chart_structure.specs.Views as views;
ghost use Rattle.resolved_tree.specs.Plain as plain;
ghost use Rattle.resolved_tree.specs.Promise.{KeepsPromise};
ghost use Rattle.resolved_tree.specs.Views.{trans_of, list_of, state_of, junction_of, resolved_of};
ghost use Rattle.chart_check.specs.Nets as spec;

use chart_structure::{Arrow, JunctionNode, Net, Node};
use checked_chart::Dest;
use flow_base::{List, Memory};
use resolved_tree::{Resolved, ResolvedDest, ResolvedJunction, ResolvedState, ResolvedTrans};
use std::alloc::{AllocError, Global};
use token_grammar::Span;

/// A destination without its place.
pub fn plain_dest(dest: ResolvedDest) -> Dest
    ensures { result ≡ plain.plain_dest dest }
{
    match dest {
        ResolvedDest::State(state) => Dest::State(state.number),
        ResolvedDest::Junction(junction) => Dest::Junction(junction.number),
    }
}

/// The place of a destination.
fn dest_place(dest: ResolvedDest) -> Span
    ensures { result ≡ spec.dest_place dest }
{
    match dest {
        ResolvedDest::State(state) => state.at,
        ResolvedDest::Junction(junction) => junction.at,
    }
}

/// What a net has of a transition.
fn arrow_of(trans: &ResolvedTrans) -> Arrow
    ensures { result ≡ spec.arrow_of (trans_of trans.now) }
{
    Arrow {
        at: trans.at,
        open: trans.event.is_some() || trans.guard.is_some(),
        to: plain_dest(trans.dest),
        to_at: dest_place(trans.dest),
    }
}

/// What a net has of a list of transitions.
fn arrows(alloc: Global, list: &List<ResolvedTrans>) -> Result<Vec<Arrow>, AllocError>
    ensures { IfOk result (λ arrows. arrows.items
        ≡ map spec.arrow_of (list_of (items_of list.now))) }
{
    list.items().iter().map(arrow_of).collect(alloc)
}

/// What a net has of a state.
fn node_of(alloc: Global, state: &ResolvedState) -> Result<Node, AllocError>
    ensures { IfOk result (λ node. views.node_of node ≡ spec.node_of (state_of state.now)) }
{
    Ok(Node {
        name: state.at,
        word: state.word,
        history: state.history,
        outer: arrows(alloc, &state.outer)?,
        inner: arrows(alloc, &state.inner)?,
        default: arrows(alloc, &state.default)?,
    })
}

/// What a net has of a junction.
fn junction_node_of(alloc: Global, junction: &ResolvedJunction) -> Result<JunctionNode, AllocError>
    ensures { IfOk result (λ node. views.junction_of node
        ≡ spec.junction_node_of (junction_of junction.now)) }
{
    Ok(JunctionNode {
        name: junction.at,
        list: arrows(alloc, &junction.list)?,
    })
}

/// What a net has of the states.
fn nodes(alloc: Global, states: &[ResolvedState]) -> Result<Vec<Node>, AllocError>
    ensures { IfOk result (λ nodes. map views.node_of nodes.items
        ≡ map spec.node_of (map state_of states.now)) }
{
    let mut nodes = Vec::new(alloc);
    for state in states {
        nodes.push(node_of(alloc, state)?)?;
    }
    Ok(nodes)
}

/// What a net has of the junctions.
fn junction_nodes(
    alloc: Global,
    junctions: &[ResolvedJunction],
) -> Result<Vec<JunctionNode>, AllocError>
    ensures { IfOk result (λ nodes. map views.junction_of nodes.items
        ≡ map spec.junction_node_of (map junction_of junctions.now)) }
{
    let mut nodes = Vec::new(alloc);
    for junction in junctions {
        nodes.push(junction_node_of(alloc, junction)?)?;
    }
    Ok(nodes)
}

/// The net of a resolved chart, over its tree.
fn build(alloc: Global, resolved: &Resolved) -> Result<Net<'_>, AllocError>
    requires { KeepsPromise (resolved_of resolved.now) }
    ensures { IfOk result (λ n. n ≡ spec.net_of (resolved_of resolved.now)) }
{
    let nodes = nodes(alloc, resolved.states.items())?;
    let junctions = junction_nodes(alloc, resolved.junctions.items())?;
    Ok(Net::make(&resolved.shape, nodes, junctions))
}

/// The net of a resolved chart, over its tree. It takes memory for what the net has of states and
/// junctions.
///
/// Fails only where memory does.
pub fn net_of(alloc: Global, resolved: &Resolved) -> Result<Net<'_>, Memory>
    requires { KeepsPromise (resolved_of resolved.now) }
    ensures { IfOk result (λ n. n ≡ spec.net_of (resolved_of resolved.now)) }
{
    Ok(build(alloc, resolved)?)
}
