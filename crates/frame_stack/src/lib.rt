//! A stack of frames of one to seven words, in raw chunks that never move.
//!
//! The stack takes memory when room is reserved and at no other time. Contracts see it as the list
//! of its frames and the number of frames that can still be pushed. Read `specs/Stacks.antt` first,
//! what a stack is, then `specs/Chunks.antt`, how frames lie in chunks.
#![tactic(auto)]

mod cells;
mod chunk;
mod slot;
mod stack;

pub use stack::FrameStack;
