//! The events that a state counts.
#![tactic(auto, using(crate::proofs::GatherLemmas::gather_steps))]

ghost use Rattle.std.specs.Prelude.{◌≡◌, map, IfOk, OnOk};
ghost use Rattle.std.specs.List.{flat_map};
ghost use Rattle.statechart_tree.specs.Views.{action_of, parts_of, word_of, stmt_of};
ghost use Rattle.statechart_meaning.specs.Counting as spec;
ghost use Rattle.statechart_counters.specs.Seen.{counted_seen, gathered};
ghost use Rattle.statechart_counters.specs.Moments.{is_moment};

use crate::actions::{Moment, has_moment};
use crate::counted::Counted;
use crate::statements::add_block;
use crate::transitions::{add_list, add_on};
use flow_base::Memory;
use statechart_tree::{ActionWord, SourceAction, SourceEvent, SourceStmt, StateParts};
use std::alloc::Global;

/// Adds the events that the blocks of a moment count.
fn add_moment<'a>(
    events: &'a [SourceEvent],
    moment: Moment,
    actions: &'a [SourceAction],
    counted: &mut Vec<Counted<'a>>,
) -> Result<(), Memory>
    ensures { OnOk result (map counted_seen counted.new.items
        ≡ gathered (map counted_seen counted.old.items)
        (spec.counted_block events.now (spec.blocks_with (is_moment moment) (map action_of actions.now)))) }
{
    for action in actions {
        if has_moment(moment, action.words.items()) {
            add_block(events, action.block.items(), counted)?;
        }
    }
    Ok(())
}

/// Adds the events that the actions for cases of words before a block count.
fn add_words<'a>(
    events: &'a [SourceEvent],
    block: &'a [SourceStmt],
    words: &'a [ActionWord],
    counted: &mut Vec<Counted<'a>>,
) -> Result<(), Memory>
    ensures { OnOk result (map counted_seen counted.new.items
        ≡ gathered (map counted_seen counted.old.items)
        (flat_map (spec.counted_on events.now)
        (flat_map (spec.on_word (map stmt_of block.now)) (map word_of words.now)))) }
{
    for word in words {
        if let ActionWord::On(cases, _) = word {
            add_on(events, cases.items(), block, counted)?;
        }
    }
    Ok(())
}

/// Adds the events that the actions for cases count.
fn add_ons<'a>(
    events: &'a [SourceEvent],
    actions: &'a [SourceAction],
    counted: &mut Vec<Counted<'a>>,
) -> Result<(), Memory>
    ensures { OnOk result (map counted_seen counted.new.items
        ≡ gathered (map counted_seen counted.old.items)
        (flat_map (spec.counted_on events.now) (spec.ons_in (map action_of actions.now)))) }
{
    for action in actions {
        add_words(events, action.block.items(), action.words.items(), counted)?;
    }
    Ok(())
}

/// The events that a state counts, each once, in the order of first use.
pub fn counted_events<'a>(
    alloc: Global,
    events: &'a [SourceEvent],
    parts: &'a StateParts,
) -> Result<Vec<Counted<'a>>, Memory>
    ensures { IfOk result (λ v. map counted_seen v.items
        ≡ spec.counted_events events.now (parts_of parts.now)) }
{
    let mut counted = Vec::new(alloc);
    let actions = parts.actions.items();
    add_moment(events, Moment::Entry, actions, &mut counted)?;
    add_moment(events, Moment::During, actions, &mut counted)?;
    add_moment(events, Moment::Exit, actions, &mut counted)?;
    add_ons(events, actions, &mut counted)?;
    add_list(events, parts.inner.items(), &mut counted)?;
    add_list(events, parts.outer.items(), &mut counted)?;
    Ok(counted)
}
