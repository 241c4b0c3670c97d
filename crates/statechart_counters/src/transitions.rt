//! The events that transitions count.
#![tactic(auto, using(crate::proofs::GatherLemmas::gather_steps))]

ghost use Rattle.std.specs.Prelude.{◌≡◌, ◌++◌, map, OnOk};
ghost use Rattle.std.specs.List.{flat_map};
ghost use Rattle.std.specs.Option.{option_map};
ghost use Rattle.statechart_tree.specs.Views.{case_of, guard_of, stmt_of, trans_of, trigger_of};
ghost use Rattle.statechart_meaning.specs.Counting as spec;
ghost use Rattle.statechart_counters.specs.Seen.{counted_seen, gathered};

use crate::counted::{Counted, add, counted_at};
use crate::expressions::add_expr;
use crate::statements::add_block;
use flow_base::Memory;
use statechart_tree::{Case, SourceEvent, SourceGuard, SourceStmt, SourceTrans, Trigger};

/// Adds the events that the event of a case counts.
fn add_trigger<'a>(
    events: &'a [SourceEvent],
    trigger: &'a Trigger,
    counted: &mut Vec<Counted<'a>>,
) -> Result<(), Memory>
    ensures { OnOk result (map counted_seen counted.new.items
        ≡ gathered (map counted_seen counted.old.items)
        (spec.counted_trigger events.now (trigger_of trigger.now))) }
{
    match trigger {
        Trigger::Always => Ok(()),
        Trigger::On(_) => Ok(()),
        Trigger::Timed(_, count, event, _) => {
            add(counted, counted_at(events, event))?;
            add_expr(events, count, counted)?;
            Ok(())
        }
        Trigger::Every(count, _, _) => add_expr(events, count, counted),
    }
}

/// Adds the events that a guard counts.
fn add_guard<'a>(
    events: &'a [SourceEvent],
    guard: &'a Option<SourceGuard>,
    counted: &mut Vec<Counted<'a>>,
) -> Result<(), Memory>
    ensures { OnOk result (map counted_seen counted.new.items
        ≡ gathered (map counted_seen counted.old.items)
        (spec.counted_guard events.now (option_map guard_of guard.now))) }
{
    match guard {
        None => Ok(()),
        Some(guard) => add_expr(events, &guard.expr, counted),
    }
}

/// Adds the events that cases count.
fn add_cases<'a>(
    events: &'a [SourceEvent],
    cases: &'a [Case],
    counted: &mut Vec<Counted<'a>>,
) -> Result<(), Memory>
    ensures { OnOk result (map counted_seen counted.new.items
        ≡ gathered (map counted_seen counted.old.items)
        (flat_map (spec.counted_case events.now) (map case_of cases.now))) }
{
    for case in cases {
        add_trigger(events, &case.trigger, counted)?;
        add_guard(events, &case.guard, counted)?;
    }
    Ok(())
}

/// Adds the events that cases and a block behind them count.
pub(crate) fn add_on<'a>(
    events: &'a [SourceEvent],
    cases: &'a [Case],
    block: &'a [SourceStmt],
    counted: &mut Vec<Counted<'a>>,
) -> Result<(), Memory>
    ensures { OnOk result (map counted_seen counted.new.items
        ≡ gathered (map counted_seen counted.old.items)
        (flat_map (spec.counted_case events.now) (map case_of cases.now)
        ++ spec.counted_block events.now (map stmt_of block.now))) }
{
    add_cases(events, cases, counted)?;
    add_block(events, block, counted)?;
    Ok(())
}

/// Adds the events that transitions count.
pub(crate) fn add_list<'a>(
    events: &'a [SourceEvent],
    list: &'a [SourceTrans],
    counted: &mut Vec<Counted<'a>>,
) -> Result<(), Memory>
    ensures { OnOk result (map counted_seen counted.new.items
        ≡ gathered (map counted_seen counted.old.items)
        (flat_map (spec.counted_trans events.now) (map trans_of list.now))) }
{
    for trans in list {
        add_on(events, trans.cases.items(), trans.cond.items(), counted)?;
        add_block(events, trans.act.items(), counted)?;
    }
    Ok(())
}
