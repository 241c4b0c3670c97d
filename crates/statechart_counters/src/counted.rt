//! Events that are counted, each once.
#![tactic(auto, using(crate::proofs::GatherLemmas::gather_steps))]

ghost use Rattle.std.specs.Prelude.{◌≡◌, ◌∷◌, [], map, OnOk, is_some};
ghost use Rattle.flow_base.specs.Names.{index_of};
ghost use Rattle.statechart_meaning.specs.Times as times;
ghost use Rattle.statechart_counters.specs.Seen.{counted_seen, gathered, texts};

use chart_tree::{NameText, Span};
use flow_base::Memory;
use statechart_tree::SourceEvent;
use statechart_values::timer_of;

/// An event that is counted.
#[derive(Clone, Copy)]
pub struct Counted<'a> {
    /// Its name.
    pub name: &'a NameText,
    /// The place of the word that counts it.
    pub at: Span,
}

/// The event that is counted where an event or a unit stands.
pub(crate) fn counted_at<'a>(events: &'a [SourceEvent], name: &'a NameText) -> Counted<'a>
    ensures { counted_seen result ≡ times.counted_event events.now name.now }
{
    match timer_of(events, name.text.text()) {
        None => Counted { name, at: name.at },
        Some(timer) => Counted {
            name: timer.clock.name,
            at: name.at,
        },
    }
}

/// Whether an event of the name is among those that are counted.
#[tactic(auto, using(crate::proofs::HasLemmas::has_steps))]
fn has(counted: &[Counted<'_>], name: &str) -> bool
    ensures { result ≡ is_some (index_of name.now (texts (map counted_seen counted.now))) }
{
    for one in counted {
        if one.name.text.text() == name {
            return true;
        }
    }
    false
}

/// Counts one more event, unless it is counted already.
pub fn add<'a>(counted: &mut Vec<Counted<'a>>, one: Counted<'a>) -> Result<(), Memory>
    ensures { OnOk result (map counted_seen counted.new.items
        ≡ gathered (map counted_seen counted.old.items) (counted_seen one.entry ∷ [])) }
{
    if !has(counted, one.name.text.text()) {
        counted.push(one)?;
    }
    Ok(())
}
