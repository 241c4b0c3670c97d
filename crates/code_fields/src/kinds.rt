//! Words for how a state is composed, and for kinds of data and events.
ghost use Rattle.std.specs.Prelude.{◌≡◌};
ghost use Rattle.code_fields.specs.Fields as spec;

use actions::{EventKind, VarKind};
use active_config::Comp;
use fixed_point::Mode;

/// How a state is composed, from its word.
#[tactic(auto, unfolding(crate::specs::Fields::comp_of))]
pub fn comp_of(word: &[u8]) -> Option<Comp>
    ensures { result ≡ spec.comp_of word.now }
{
    if word == b"leaf".as_slice() {
        Some(Comp::Leaf)
    } else if word == b"or".as_slice() {
        Some(Comp::Or)
    } else if word == b"and".as_slice() {
        Some(Comp::And)
    } else {
        None
    }
}

/// Who sets a datum, from its word.
#[tactic(auto, unfolding(crate::specs::Fields::var_kind_of))]
pub fn var_kind_of(word: &[u8]) -> Option<VarKind>
    ensures { result ≡ spec.var_kind_of word.now }
{
    if word == b"input".as_slice() {
        Some(VarKind::Input)
    } else if word == b"output".as_slice() {
        Some(VarKind::Output)
    } else if word == b"local".as_slice() {
        Some(VarKind::Local)
    } else {
        None
    }
}

/// Who raises an event, from its word.
#[tactic(auto, unfolding(crate::specs::Fields::event_kind_of))]
pub fn event_kind_of(word: &[u8]) -> Option<EventKind>
    ensures { result ≡ spec.event_kind_of word.now }
{
    if word == b"input".as_slice() {
        Some(EventKind::Input)
    } else if word == b"local".as_slice() {
        Some(EventKind::Local)
    } else if word == b"output".as_slice() {
        Some(EventKind::Output)
    } else {
        None
    }
}

/// What is done with a number out of range, from its word.
#[tactic(auto, unfolding(crate::specs::Fields::mode_of))]
pub fn mode_of(word: &[u8]) -> Option<Mode>
    ensures { result ≡ spec.mode_of word.now }
{
    if word == b"saturate".as_slice() {
        Some(Mode::Saturate)
    } else if word == b"wrap".as_slice() {
        Some(Mode::Wrap)
    } else if word == b"error".as_slice() {
        Some(Mode::Error)
    } else {
        None
    }
}
