//! The events that expressions count.
#![tactic(auto, using(crate::proofs::GatherLemmas::gather_steps))]

ghost use Rattle.std.specs.Prelude.{◌≡◌, map, OnOk};
ghost use Rattle.statechart_tree.specs.Views.{expr_of, row_of};
ghost use Rattle.statechart_meaning.specs.Counting as spec;
ghost use Rattle.statechart_counters.specs.Seen.{counted_seen, gathered};

use crate::counted::{Counted, add, counted_at};
use flow_base::Memory;
use statechart_tree::{SourceEvent, SourceExpr};

/// Adds the events that an expression counts.
#[cycle(expressions)]
pub(crate) fn add_expr<'a>(
    events: &'a [SourceEvent],
    e: &'a SourceExpr,
    counted: &mut Vec<Counted<'a>>,
) -> Result<(), Memory>
    ensures { OnOk result (map counted_seen counted.new.items
        ≡ gathered (map counted_seen counted.old.items) (spec.counted_in events.now (expr_of e.now))) }
{
    match e {
        SourceExpr::Lit(_, _) => Ok(()),
        SourceExpr::Flag(_, _) => Ok(()),
        SourceExpr::Name(_) => Ok(()),
        SourceExpr::Active(_, _) => Ok(()),
        SourceExpr::Count(event, _) => add(
            counted,
            Counted {
                name: event,
                at: event.at,
            },
        ),
        SourceExpr::Timed(_, count, event, _) => {
            add(counted, counted_at(events, event))?;
            add_expr(events, count, counted)?;
            Ok(())
        }
        SourceExpr::Call(_, arguments) => add_row(events, arguments.items(), counted),
        SourceExpr::Unary(_, operand, _) => add_expr(events, operand, counted),
        SourceExpr::Binary(_, left, right, _) => {
            add_expr(events, left, counted)?;
            add_expr(events, right, counted)?;
            Ok(())
        }
    }
}

/// Adds the events that expressions count.
#[cycle(expressions)]
pub(crate) fn add_row<'a>(
    events: &'a [SourceEvent],
    es: &'a [SourceExpr],
    counted: &mut Vec<Counted<'a>>,
) -> Result<(), Memory>
    ensures { OnOk result (map counted_seen counted.new.items
        ≡ gathered (map counted_seen counted.old.items)
        (spec.counted_row events.now (row_of (map expr_of es.now)))) }
{
    for e in es {
        add_expr(events, e, counted)?;
    }
    Ok(())
}
