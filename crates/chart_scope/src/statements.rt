//! Statements, with numbers for their names.
ghost use Rattle.std.specs.Prelude.{◌≡◌, ◌<◌, IfOk, OnOk, map, Option};
ghost use Rattle.std.specs.Option.{option_map};
ghost use Rattle.active_config.specs.Tree.{state_count};
ghost use Rattle.flow_base.specs.Lists.{items_of};
ghost use Rattle.chart_tree.specs.Views as texts;
ghost use Rattle.resolved_tree.specs.Faults.{first_with};
ghost use Rattle.resolved_tree.specs.Views as views;
ghost use Rattle.chart_scope.specs.Uses as spec;

use crate::expressions::expr;
use crate::references;
use chart_places::Scopes;
use chart_tree::{FaultAt, PathText, StmtText};
use flow_base::List;
use resolved_tree::{Ref, ResolvedStmt};
use std::alloc::{AllocError, Global};

/// The state to which an event is sent, where there is one.
#[tactic(auto, unfolding(resolved_tree::specs::Faults::first_with))]
fn target(
    scopes: &Scopes<'_>,
    state: u32,
    path: &Option<PathText>,
    found: &mut Option<FaultAt>,
) -> Option<Ref>
    requires state { state < state_count scopes.now.tree }
    ensures built { result
        ≡ spec.resolved_target scopes.now state (option_map texts.path_of path.now) }
    ensures kept { found.new ≡ first_with found.old
        (spec.target_faults scopes.now state (option_map texts.path_of path.now)) }
{
    match path {
        None => None,
        Some(path) => Some(references::state(scopes, state, path, found)),
    }
}

/// A statement of a state, with numbers for its names. The first fault of these is kept.
#[tactic(auto, using(crate::proofs::FoundLemmas::found_steps))]
fn stmt(
    alloc: Global,
    scopes: &Scopes<'_>,
    state: u32,
    text: &StmtText,
    found: &mut Option<FaultAt>,
) -> Result<ResolvedStmt, AllocError>
    requires state { state < state_count scopes.now.tree }
    ensures built { IfOk result (λ r. views.stmt_of r
        ≡ spec.resolved_stmt scopes.now state (texts.stmt_of text.now)) }
    ensures kept { OnOk result (found.new ≡ first_with found.old
        (spec.stmt_faults scopes.now state (texts.stmt_of text.now))) }
{
    match text {
        StmtText::Assign(name, value) => {
            let datum = references::datum(scopes, name, found);
            Ok(ResolvedStmt::Assign(datum, expr(alloc, scopes, state, value, found)?))
        }
        StmtText::Send(name, path) => {
            let event = references::event(scopes, name, found);
            Ok(ResolvedStmt::Send(event, target(scopes, state, path, found)))
        }
        StmtText::Emit(name) => Ok(ResolvedStmt::Emit(references::event(scopes, name, found))),
    }
}

/// A block of a state, with numbers for its names. The first fault of these is kept.
#[tactic(auto, using(crate::proofs::FoundLemmas::found_steps))]
pub(crate) fn block(
    alloc: Global,
    scopes: &Scopes<'_>,
    state: u32,
    stmts: &[StmtText],
    found: &mut Option<FaultAt>,
) -> Result<List<ResolvedStmt>, AllocError>
    requires state { state < state_count scopes.now.tree }
    ensures built { IfOk result (λ r. views.block_of (items_of r)
        ≡ map (spec.resolved_stmt scopes.now state) (texts.block_of stmts.now)) }
    ensures kept { OnOk result (found.new ≡ first_with found.old
        (spec.block_faults scopes.now state (texts.block_of stmts.now))) }
{
    let mut built = Vec::new(alloc);
    for text in stmts {
        built.push(stmt(alloc, scopes, state, text, found)?)?;
    }
    Ok(List::of(built))
}
