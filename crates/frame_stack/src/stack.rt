//! The stack.
ghost use Rattle.std.specs.Prelude.{
  ◌≡◌,
  ◌+◌,
  ◌-◌,
  ◌<◌,
  ◌≤◌,
  [],
  ◌∷◌,
  ◌++◌,
  length,
  take,
  vec_len,
  slice_index_or,
  slice_set,
  All,
  IsOk,
  IfOk,
  OnErr,
};
ghost use Rattle.frame_stack.specs.Stacks.{stack};
ghost use Rattle.frame_stack.specs.Chunks.{IsFree};

use crate::chunk::{CHUNK, Chunk};
use crate::slot::Slot;
use flow_base::Memory;
use std::alloc::Global;
use std::marker::Model;

/// The most chunks, 2^50, so that a `usize` counts their slots.
const MOST_CHUNKS: usize = 0x4_0000_0000_0000;

/// Frames of 1 to 7 words each, from the bottom up, and room for more. Contracts see it as a
/// `Stack`: its frames, and how many more can be pushed.
///
/// A frame lies in a slot of 32 bytes, a header and up to seven words, and stays there until it is
/// popped. Slots lie in chunks of 1,024, which are given back when the stack is dropped.
pub struct FrameStack {
    chunks: Vec<Chunk>,
    len: usize,
    /// How many slots there are in all.
    room: usize,
    alloc: Global,
}

impl Model for FrameStack {
    ghost use Rattle.std.specs.Prelude.{◌-◌, ◌≤◌};
    ghost use Rattle.frame_stack.specs.Stacks.{Stack, stack, stack_code};
    ghost use Rattle.frame_stack.specs.Chunks.{IsStack, stack_frames};

    ghost Value = { Stack };

    ghost coded = { stack_code };

    ghost view = { λ s. stack (stack_frames s.chunks.items) (s.room - s.len) };

    ghost invariant = { λ s. IsStack s.chunks.items s.len (s.room - s.len) × (s.len ≤ s.room) };
}

/// Gives chunks without frames back.
fn give_all_back(alloc: Global, chunks: Vec<Chunk>)
    requires { All IsFree chunks.items }
{
    let mut chunks = chunks;
    while let Some(chunk) = chunks.pop() {
        chunk.give_back(alloc);
    }
    chunks.destroy_empty();
}

/// Takes that many chunks. Refused, it gives back those that it took.
fn take_chunks(alloc: Global, count: usize) -> Result<Vec<Chunk>, Memory>
    ensures { IfOk result (λ v. All IsFree v.items × (vec_len v ≡ count)) }
{
    let mut taken = Vec::new(alloc);
    for _ in 0..count {
        match Chunk::make(alloc) {
            Ok(chunk) => {
                if let Err(refused) = taken.push(chunk) {
                    refused.value.give_back(alloc);
                    give_all_back(alloc, taken);
                    return Err(Memory);
                }
            }
            Err(_) => {
                give_all_back(alloc, taken);
                return Err(Memory);
            }
        }
    }
    Ok(taken)
}

impl FrameStack {
    /// A stack without frames, on which none can be pushed yet. It takes no memory.
    pub fn new(alloc: Global) -> FrameStack
        ensures { result ≡ stack [] 0 }
    {
        FrameStack {
            chunks: Vec::new(alloc),
            len: 0,
            room: 0,
            alloc,
        }
    }

    /// How many frames there are.
    pub fn len(&self) -> usize
        ensures { result ≡ length self.now.frames }
    {
        self.len
    }

    /// How many more frames can be pushed.
    pub fn spare(&self) -> usize
        ensures { result ≡ self.now.spare }
    {
        self.room - self.len
    }

    /// Pushes a frame of these words, from 1 to 7. One more frame must fit (`spare`). It takes no
    /// memory.
    pub fn push(&mut self, words: &[u32])
        requires words { (1 ≤ length words.now) × (length words.now ≤ 7) }
        requires spare { 0 < self.old.spare }
        ensures frames { self.new.frames ≡ self.old.frames ++ words.now ∷ [] }
        ensures spare { self.new.spare ≡ self.old.spare - 1 }
    {
        let place = self.len;
        self.chunks[place / CHUNK].fill(place % CHUNK, Slot::of(words));
        self.len += 1;
    }

    /// Takes the top frame away. There must be one. Its slot stays, so one more frame can be
    /// pushed.
    pub fn pop(&mut self)
        requires { 0 < length self.old.frames }
        ensures frames { self.new.frames ≡ take (length self.old.frames - 1) self.old.frames }
        ensures spare { self.new.spare ≡ self.old.spare + 1 }
    {
        let place = self.len - 1;
        self.chunks[place / CHUNK].empty(place % CHUNK);
        self.len = place;
    }

    /// The words of the frame `i`, from 1 to 7. The bottom frame is 0, and `i` is below `len`.
    pub fn at(&self, i: usize) -> &[u32]
        requires { i < length self.now.frames }
        ensures words { result.now ≡ slice_index_or self.now.frames i [] }
        ensures count { (1 ≤ length result.now) × (length result.now ≤ 7) }
    {
        self.chunks[i / CHUNK].slot(i % CHUNK).words()
    }

    /// Changes the word `w` of the frame `i`, which must have that word. The bottom frame and a
    /// frame's first word are 0. It takes no memory.
    pub fn set(&mut self, i: usize, w: usize, value: u32)
        requires frame { i < length self.old.frames }
        requires word { w < length (slice_index_or self.old.frames i []) }
        ensures frames { self.new.frames ≡ slice_set self.old.frames i
            (slice_set (slice_index_or self.old.frames i []) w value) }
        ensures spare { self.new.spare ≡ self.old.spare }
    {
        self.chunks[i / CHUNK].set_word(i % CHUNK, w, value);
    }

    /// Takes memory until at least `n` more frames can be pushed. Frames that are there stay in
    /// their slots, and room that is there stays. Refused for want of memory, it gives back what it
    /// took, and frames and spare are as before.
    pub fn reserve(&mut self, n: usize) -> Result<(), Memory>
        ensures there { n ≤ self.old.spare → IsOk result × (self.new ≡ self.old) }
        ensures frames { self.new.frames ≡ self.old.frames }
        ensures spare { IsOk result → n ≤ self.new.spare }

        // No chunk is taken that isn't needed.
        ensures few { self.old.spare < n → self.new.spare < n + CHUNK }
        ensures kept { self.old.spare ≤ self.new.spare }
        ensures refused { OnErr result (self.new ≡ self.old) }
    {
        let spare = self.room - self.len;
        if n <= spare {
            return Ok(());
        }
        let wanted = (n - spare - 1) / CHUNK + 1;
        if MOST_CHUNKS - self.chunks.len() < wanted {
            return Err(Memory);
        }
        // All chunks are taken before the table of chunks grows, so a refusal changes nothing.
        let mut more = take_chunks(self.alloc, wanted)?;
        match self.chunks.append(&mut more) {
            Ok(()) => {
                more.destroy_empty();
                self.room += wanted * CHUNK;
                Ok(())
            }
            Err(_) => {
                give_all_back(self.alloc, more);
                Err(Memory)
            }
        }
    }

    /// Frees a stack without frames.
    fn free(self)
        requires { length self.frames ≡ 0 }
    {
        let FrameStack {
            chunks,
            len: _,
            room: _,
            alloc,
        } = self;
        give_all_back(alloc, chunks);
    }
}

impl Drop for FrameStack {
    fn drop(mut self) {
        while self.len() > 0 {
            self.pop();
        }
        self.free();
    }
}
