//! A chunk of 1,024 slots.
ghost use Rattle.std.specs.Prelude.{◌≡◌, ◌<◌, None, Some, get_or, slice_set, IfOk};
ghost use Rattle.frame_stack.specs.declared.slot.Slot.{Slot as Frame};
ghost use Rattle.frame_stack.specs.Chunks.{IsChunk, IsFree, with_word};
ghost use Rattle.frame_stack.specs.Places.{IsFilled};
ghost use Rattle.frame_stack.specs.declared.chunk.TheConstants.{CHUNK};

use crate::cells::{Base, Cells, Deed, allocate, deallocate};
use crate::slot::Slot;
use std::alloc::{AllocError, Global};

/// How many slots a chunk has.
pub(crate) const CHUNK: usize = 1024;

/// A block of slots, which stays where it is. It isn't dropped, but given back.
pub(crate) struct Chunk {
    pub(crate) base: Base<Slot>,
    pub(crate) cells: Cells<Slot>,
    pub(crate) deed: Deed<Slot, Global>,
}

impl Chunk {
    /// A chunk without frames. Its bytes aren't written.
    pub(crate) fn make(alloc: Global) -> Result<Chunk, AllocError>
        ensures { IfOk result IsFree }
    {
        let (base, cells, deed) = allocate(&alloc, CHUNK)?;
        Ok(Chunk { base, cells, deed })
    }

    /// Gives a chunk without frames back.
    pub(crate) fn give_back(self, alloc: Global)
        requires { IsFree self }
    {
        let Chunk { base, cells, deed } = self;
        deallocate(&alloc, base, CHUNK, cells, deed);
    }

    /// Puts a frame into an empty place.
    pub(crate) fn fill(&mut self, place: usize, slot: Slot)
        requires chunk { IsChunk self.old }
        requires place { place < CHUNK }
        requires empty { get_or self.old.cells.slots place None ≡ None }
        ensures chunk { IsChunk self.new }
        ensures slots { self.new.cells.slots ≡ slice_set self.old.cells.slots place (Some slot) }
    {
        self.cells.write(self.base, place, slot);
    }

    /// Takes the frame out of its place.
    pub(crate) fn empty(&mut self, place: usize)
        requires chunk { IsChunk self.old }
        requires place { place < CHUNK }
        requires filled { IsFilled self.old.cells.slots place }
        ensures chunk { IsChunk self.new }
        ensures slots { self.new.cells.slots ≡ slice_set self.old.cells.slots place None }
    {
        let _ = self.cells.read(self.base, place);
    }

    /// The frame at a place.
    pub(crate) fn slot(&self, place: usize) -> &Slot
        requires chunk { IsChunk self.now }
        requires place { place < CHUNK }
        requires filled { IsFilled self.now.cells.slots place }
        ensures { get_or self.now.cells.slots place None ≡ Some result.now }
    {
        self.cells.get(self.base, place)
    }

    /// Changes a word of the frame at a place.
    pub(crate) fn set_word(&mut self, place: usize, w: usize, value: u32)
        requires chunk { IsChunk self.old }
        requires place { place < CHUNK }
        requires filled { IsFilled self.old.cells.slots place }
        requires word { w < 7 }
        ensures chunk { IsChunk self.new }
        ensures slots { (s : Frame) → get_or self.old.cells.slots place None ≡ Some s →
            self.new.cells.slots ≡
            slice_set self.old.cells.slots place (Some (with_word s w value)) }
    {
        self.cells.get_mut(self.base, place).words[w] = value;
    }
}
