//! Sets of small numbers, a bit for each.
use flow_base::Memory;
use std::alloc::Global;

/// How many bits a word has.
const BITS: usize = 64;

/// A set of numbers below a limit.
#[derive(Drop)]
pub struct Marks {
    /// Words of bits, the bit of 0 first.
    words: Vec<u64>,
}

impl Marks {
    /// No numbers, where all are below this limit.
    pub fn new(alloc: Global, limit: usize) -> Result<Marks, Memory> {
        let words = vec![in alloc; 0u64; limit / BITS + 1]?;
        Ok(Marks { words })
    }

    /// Whether a number is in it.
    pub fn has(&self, number: usize) -> bool {
        match self.words.get(number / BITS) {
            Some(word) => (*word >> (number % BITS)) % 2 == 1,
            None => false,
        }
    }

    /// Puts a number into it.
    pub fn add(&mut self, number: usize) {
        if let Some(word) = self.words.get_mut(number / BITS) {
            *word |= 1 << (number % BITS);
        }
    }

    /// Puts those of another set into it. Whether one is new.
    pub fn add_all(&mut self, others: &Marks) -> bool {
        let mut is_new = false;
        for (place, more) in others.words.iter().enumerate() {
            if let Some(word) = self.words.get_mut(place) {
                let all = *word | *more;
                is_new = is_new || all != *word;
                *word = all;
            }
        }
        is_new
    }

    /// Takes out those that aren't in another set.
    pub fn keep_all(&mut self, others: &Marks) {
        for (place, kept) in others.words.iter().enumerate() {
            if let Some(word) = self.words.get_mut(place) {
                *word &= *kept;
            }
        }
    }
}
