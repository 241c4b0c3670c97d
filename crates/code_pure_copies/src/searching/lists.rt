//! Lists of notes, each under a number of its own.
use code_copies::number_of;
use flow_base::Memory;
use indexmap::IndexSet;
use std::alloc::Global;

/// The greatest number of notes that may be pending where a procedure begins.
///
/// Source: this project's choice.
pub const PENDING_LIMIT: usize = 16;

/// The number of the list that has no notes.
pub(crate) const NO_NOTES: u32 = 0;

/// A list that has notes: the number of the list before the last one, and the last one.
#[derive(Clone, Copy, PartialEq, Eq, Hash)]
struct Longer {
    /// The list.
    list: u32,
    /// The note, a procedure.
    note: u32,
}

/// Lists of notes. The list with number `n + 1` is the longer one with index `n`.
#[derive(Drop)]
pub(crate) struct NoteLists {
    /// The lists that have notes.
    longer: IndexSet<Longer>,
}

impl NoteLists {
    /// The list without notes alone.
    pub(crate) fn new(alloc: Global) -> NoteLists {
        NoteLists {
            longer: IndexSet::new(alloc),
        }
    }

    /// How many notes the list has, as far as there are no more than may be.
    fn length(&self, list: u32) -> usize {
        let mut rest = list;
        for length in 0..PENDING_LIMIT {
            let Some(index) = (rest as usize).checked_sub(1) else {
                return length;
            };
            match self.longer.get_index(index) {
                Some(longer) => rest = longer.list,
                None => return length,
            }
        }
        PENDING_LIMIT
    }

    /// The number of the list with the note after it. None where it would be too long.
    pub(crate) fn with_note(&mut self, list: u32, note: u32) -> Result<Option<u32>, Memory> {
        if self.length(list) >= PENDING_LIMIT {
            return Ok(None);
        }
        let (index, _) = self.longer.insert_full(Longer { list, note })?;
        Ok(Some(number_of(index.saturating_add(1))))
    }
}
