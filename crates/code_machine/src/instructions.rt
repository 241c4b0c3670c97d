//! What each instruction does with what a run changes and with the top frame. None takes memory.

pub(crate) mod calls;
pub(crate) mod conditions;
pub(crate) mod data;
pub(crate) mod marking;
pub(crate) mod notes;
pub(crate) mod sends;
