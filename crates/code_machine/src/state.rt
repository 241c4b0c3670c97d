//! What a run changes.
ghost use Rattle.std.specs.Prelude.{◌≡◌, ◌+◌, ◌≤◌, true};
ghost use Rattle.actions.specs.Changes.{paid_in};
ghost use Rattle.code_machine.specs.States.{world_of, Paid};

use crate::encoding::EventNumber;
use actions::Vals;
use active_config::Marks;
use flow_base::{Bounds, Fault};
use frame_stack::FrameStack;

/// Everything that a run changes, but for the top frame.
#[derive(Drop)]
pub(crate) struct MachineState {
    /// The active states.
    pub marks: Marks,
    /// The values of the data.
    pub vals: Vals,
    /// The events that were emitted.
    pub outputs: Vec<u32>,
    /// The steps that are used.
    pub used: u32,
    /// The number of the current event.
    pub event: EventNumber,
    /// How deep the current event was sent.
    pub depth: u32,
    /// The last result.
    pub result: u32,
    /// The frames below the top one.
    pub stack: FrameStack,
}

/// What an instruction did.
#[derive(Clone, Copy)]
pub(crate) enum Move {
    /// The run goes on at the next place.
    Goes,
    /// The run goes on with another frame on top.
    Turns,
    /// No frame is left.
    Ends,
    /// The run has this fault.
    Faults(Fault),
}

/// Pays one step, or finds that none is left.
#[tactic(auto, unfolding(actions::specs::Changes::paid_in))]
#[inline(always)]
pub(crate) fn pay(bounds: Bounds, machine: &mut MachineState) -> bool
    ensures paid { Paid (paid_in bounds (world_of machine.old)) result machine.old machine.new }
    ensures used { result ≡ true → (machine.new.used ≡ machine.old.used + 1)
        × (machine.new.used ≤ bounds.steps) }
{
    if machine.used < bounds.steps {
        machine.used += 1;
        true
    } else {
        false
    }
}
