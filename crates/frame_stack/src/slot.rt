//! A frame in its slot of 32 bytes: a header, which says how many words it has, and room for seven.
ghost use Rattle.std.specs.Prelude.{◌≡◌, ◌≤◌, length};
ghost use Rattle.frame_stack.specs.Chunks.{words_in, IsSlot};

use std::mem::size_of;

/// A frame: its first `count` words, from 1 to 7.
#[derive(Clone, Copy)]
pub(crate) struct Slot {
    pub(crate) count: u32,
    pub(crate) words: [u32; 7],
}

const _: () = prove!(size_of::<Slot>() == 32);

impl Slot {
    /// The frame of these words, from 1 to 7.
    pub(crate) fn of(words: &[u32]) -> Slot
        requires { (1 ≤ length words.now) × (length words.now ≤ 7) }
        ensures words { words_in result ≡ words.now }
        ensures slot { IsSlot result }
    {
        // A frame of seven words is copied at once.
        if let Some(all) = words.as_array::<7>() {
            return Slot {
                count: 7,
                words: *all,
            };
        }
        let mut kept = [0; 7];
        kept[..words.len()].copy_from_slice(words);
        Slot {
            count: words.len() as u32,
            words: kept,
        }
    }

    /// The words of the frame.
    pub(crate) fn words(&self) -> &[u32]
        requires { IsSlot self.now }
        ensures words { result.now ≡ words_in self.now }
        ensures count { (1 ≤ length result.now) × (length result.now ≤ 7) }
    {
        &self.words[..self.count as usize]
    }
}
