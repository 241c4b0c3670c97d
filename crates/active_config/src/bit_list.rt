//! Flags that are kept as bits of words.
use std::alloc::{AllocError, Global};
use std::marker::Model;

/// A list of flags, 64 of them in a word. Contracts see the list of the flags.
#[derive(Drop)]
pub struct BitList {
    words: Vec<u64>,
    count: u32,
}

impl Model for BitList {
    ghost use Rattle.std.specs.Prelude.{ℕ, ◌*◌, ◌≤◌, List, Bool, length};
    ghost use Rattle.active_config.specs.BitList.{bits_of};

    ghost Value = { List Bool };

    ghost view = { λ f. bits_of f.count f.words.items };

    ghost invariant = { λ f. f.count ≤ 64 * length f.words.items };
}

impl BitList {
    ghost use Rattle.std.specs.Prelude.{
      ◌≡◌,
      ◌<◌,
      ◌≤◌,
      true,
      false,
      length,
      replicate,
      slice_index_or,
      slice_set,
      IfOk,
      IfSome,
    };
    ghost use Rattle.active_config.specs.BitList as spec;

    /// A list of that many flags, all of them off.
    pub fn make(alloc: Global, count: u32) -> Result<BitList, AllocError>
        ensures { IfOk result (λ flags. flags ≡ replicate count false) }
    {
        let words = vec![in alloc; 0u64; count.div_ceil(64) as usize]?;
        Ok(BitList { words, count })
    }

    /// How many flags there are.
    pub fn len(&self) -> u32
        ensures { result ≡ length self.now }
    {
        self.count
    }

    /// Whether a flag is on.
    pub fn get(&self, index: u32) -> bool
        requires { index < length self.now }
        ensures { result ≡ slice_index_or self.now index false }
    {
        (self.words[(index / 64) as usize] >> (index % 64)) & 1 == 1
    }

    /// Turns a flag on.
    pub fn turn_on(&mut self, index: u32)
        requires { index < length self.old }
        ensures { self.new ≡ slice_set self.old index true }
    {
        self.words[(index / 64) as usize] |= 1u64 << (index % 64);
    }

    /// Turns a flag off.
    pub fn turn_off(&mut self, index: u32)
        requires { index < length self.old }
        ensures { self.new ≡ slice_set self.old index false }
    {
        self.words[(index / 64) as usize] &= !(1u64 << (index % 64));
    }

    /// The first flag that is on from `from` on and before `end`. Each word is looked at once.
    pub fn first_on(&self, from: u32, end: u32) -> Option<u32>
        requires { end ≤ length self.now }
        ensures first { result ≡ spec.first_on from end self.now }
        ensures within { IfSome result (λ at. (from ≤ at) × (at < end)) }
    {
        let end = end as usize;
        let mut at = from as usize;
        'words: while at < end {
            let rest = self.words[at / 64] >> (at % 64);
            if rest != 0 {
                let found = at + rest.trailing_zeros() as usize;
                return if found < end {
                    Some(found as u32)
                } else {
                    None
                };
            }
            at = (at / 64 + 1) * 64;
        }
        None
    }
}
