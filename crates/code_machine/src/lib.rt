//! Runs well-formed code, and takes no memory once the machine is made.
//!
//! `Machine` is an engine whose starts and reactions are those of `code_language`. Read
//! `specs/Encoding.antt`, `specs/Frames.antt` and `specs/States.antt` first: what the fields of the
//! machine stand for, and what each instruction does. Then read `specs/Operations.antt`: an
//! operation is what the loop of a run does for the instruction at a place, either what that
//! instruction says, or at once what it and those that come next do. The operations are made with
//! the machine.
//!
//! The top frame is a value of the loop, which each instruction changes in place; the frames below
//! it lie on a stack whose room is reserved once, and so is the room for the events that are
//! emitted. Where a run takes many steps that change little, they are done at once: a call of a
//! procedure that does nothing but return pushes no frame, and tests of states that aren't active
//! and stand one after the other are passed over by one look-up.
//!
//! - `loaded` has the code as the machine keeps it, which no run changes; `state` has all that a
//!   run changes but the top frame; `frames` says how the frames lie on the stack, and `encoding`
//!   has the numbers of events and the words of notes, each with a type of its own.
//! - `loading` makes these, and alone takes memory.
//! - `instructions` has what each instruction does, by kind, and knows of no other instruction but
//!   `notes`, whose `Play` asks whether a state is bare.
//! - `runs` has the step and the loop over the operations.
//! - `engine` has the machine.
#![tactic(auto)]

mod encoding;
mod engine;
mod frames;
mod instructions;
mod loaded;
mod loading;
mod runs;
mod state;

pub use engine::Machine;
