//! The faults of statements.
ghost use Rattle.std.specs.Prelude.{◌≡◌};
ghost use Rattle.std.specs.List.{AllByRecursion};
ghost use Rattle.actions.specs.Names.{names_of};
ghost use Rattle.resolved_tree.specs.Faults.{first_with};
ghost use Rattle.resolved_tree.specs.Promise.{IsStmt};
ghost use Rattle.resolved_tree.specs.Views.{stmt_of, block_of, resolved_of};
ghost use Rattle.chart_types.specs.Types as spec;

use crate::expressions::with_expr;
use crate::names::{with_assignment, with_emitted, with_sent};
use chart_tree::FaultAt;
use resolved_tree::{Resolved, ResolvedStmt};

/// The first fault, with those of a statement.
#[tactic(auto, using(crate::proofs::FaultLemmas::steps))]
fn with_stmt(resolved: &Resolved, stmt: &ResolvedStmt, found: Option<FaultAt>) -> Option<FaultAt>
    requires { IsStmt (resolved_of resolved.now) (stmt_of stmt.now) }
    ensures { result ≡ first_with found
        (spec.stmt_faults (names_of resolved.now.names) (stmt_of stmt.now)) }
{
    let names = &resolved.names;
    match stmt {
        ResolvedStmt::Assign(datum, value) => {
            let value = with_expr(resolved, value, found);
            with_assignment(names, *datum, value.sort, value.found)
        }
        ResolvedStmt::Send(event, _) => with_sent(names, *event, found),
        ResolvedStmt::Emit(event) => with_emitted(names, *event, found),
    }
}

/// The first fault, with those of a block.
pub(crate) fn with_block(
    resolved: &Resolved,
    block: &[ResolvedStmt],
    found: Option<FaultAt>,
) -> Option<FaultAt>
    requires { AllByRecursion (IsStmt (resolved_of resolved.now)) (block_of block.now) }
    ensures { result ≡ first_with found
        (spec.block_faults (names_of resolved.now.names) (block_of block.now)) }
{
    let mut first = found;
    for stmt in block {
        first = with_stmt(resolved, stmt, first);
    }
    first
}
