//! The events that statements count.
#![tactic(auto, using(crate::proofs::GatherLemmas::gather_steps))]

ghost use Rattle.std.specs.Prelude.{◌≡◌, map, OnOk};
ghost use Rattle.statechart_tree.specs.Views.{stmt_of};
ghost use Rattle.statechart_meaning.specs.Counting as spec;
ghost use Rattle.statechart_counters.specs.Seen.{counted_seen, gathered};

use crate::counted::Counted;
use crate::expressions::{add_expr, add_row};
use flow_base::Memory;
use statechart_tree::{SourceEvent, SourceStmt};

/// Adds the events that a statement counts.
fn add_stmt<'a>(
    events: &'a [SourceEvent],
    stmt: &'a SourceStmt,
    counted: &mut Vec<Counted<'a>>,
) -> Result<(), Memory>
    ensures { OnOk result (map counted_seen counted.new.items
        ≡ gathered (map counted_seen counted.old.items) (spec.counted_by events.now (stmt_of stmt.now))) }
{
    match stmt {
        SourceStmt::Assign(_, e) => add_expr(events, e, counted),
        SourceStmt::Update(_, _, e, _) => add_expr(events, e, counted),
        SourceStmt::Step(_, _, _) => Ok(()),
        SourceStmt::Send(_, _) => Ok(()),
        SourceStmt::Emit(_) => Ok(()),
        SourceStmt::Raise(_) => Ok(()),
        SourceStmt::Call(_, arguments) => add_row(events, arguments.items(), counted),
    }
}

/// Adds the events that statements count.
pub(crate) fn add_block<'a>(
    events: &'a [SourceEvent],
    stmts: &'a [SourceStmt],
    counted: &mut Vec<Counted<'a>>,
) -> Result<(), Memory>
    ensures { OnOk result (map counted_seen counted.new.items
        ≡ gathered (map counted_seen counted.old.items)
        (spec.counted_block events.now (map stmt_of stmts.now))) }
{
    for stmt in stmts {
        add_stmt(events, stmt, counted)?;
    }
    Ok(())
}
