//! Whether what copies take for known is of the code.
ghost use Rattle.std.specs.Prelude.{◌≡◌, ◌<◌, ℕ, List, Some, Vec, IsTrue, length};
ghost use Rattle.std.specs.List.{All};
ghost use Rattle.std.specs.declared.alloc.Global.{Global};
ghost use Rattle.active_config.specs.Tree.{state_count};
ghost use Rattle.actions.specs.declared.event.Event.TheVariants.{Named};
ghost use Rattle.code_copies.specs.Views.{key_of, plan_of};
ghost use Rattle.code_copies.specs.Made.{keys_of};
ghost use Rattle.code_copies.specs.declared.known.EventFact.TheVariants as facts;
ghost use Rattle.code_language.specs.Code.{code_of};
ghost use Rattle.code_passes.specs.Tags.{IsKeyOf};

use actions::Event;
use code_copies::{CopyKey, EventFact, Plan};
use code_language::{Code, RawCode};

/// Whether the home, if there is one, is a state.
fn is_home_of(raw: &RawCode, home: Option<u32>) -> bool
    ensures { IsTrue result → (s : ℕ) → home ≡ Some s → s < state_count (code_of raw.now).tree }
{
    match home {
        Some(state) => (state as usize) < raw.states.items().len(),
        None => true,
    }
}

/// Whether the event, if it is known, is declared.
fn is_event_of(raw: &RawCode, event: EventFact) -> bool
    ensures { IsTrue result → (e : ℕ) → event ≡ facts.Is (Named e)
        → e < length (code_of raw.now).names.events }
{
    match event {
        EventFact::Is(Event::Named(number)) => (number as usize) < raw.events.items().len(),
        EventFact::Is(Event::Start | Event::Tick) | EventFact::NoneOf(_) => true,
    }
}

/// Whether the home of a key is a state, and its event is declared.
fn is_key_of(raw: &RawCode, key: CopyKey) -> bool
    ensures { IsTrue result → (sets : List (Vec ℕ Global))
        → IsKeyOf (code_of raw.now) (key_of sets key) }
{
    is_home_of(raw, key.facts.home) && is_event_of(raw, key.facts.event)
}

/// Whether the homes of the copies of a plan are states, and their events are declared.
pub(crate) fn are_keys_of(code: &Code, plan: &Plan) -> bool
    ensures { IsTrue result → All (IsKeyOf (code_of code.now)) (keys_of (plan_of plan.now).copies) }
{
    let raw = code.raw();
    for copy in &plan.copies {
        if !is_key_of(raw, copy.key) {
            return false;
        }
    }
    true
}
