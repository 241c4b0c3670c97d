//! Lists of notes, each under its number.
use crate::plan::NOTE_LIMIT;
use code_copies::number_of;
use flow_base::Memory;
use std::alloc::Global;

/// The number of the list without notes.
pub(crate) const NO_NOTES: u32 = 0;

/// The most lists of notes that a table has.
const NOTE_LIST_LIMIT: usize = 65_536;

/// The lists, with the numbers of those that have one more note than each.
#[derive(Drop)]
pub(crate) struct Table {
    lists: Vec<Vec<u32>>,
    longer: Vec<Vec<u32>>,
}

impl Table {
    /// The table of the list without notes.
    pub(crate) fn new(alloc: Global) -> Result<Table, Memory> {
        let mut table = Table {
            lists: Vec::new(alloc),
            longer: Vec::new(alloc),
        };
        table.add(alloc, Vec::new(alloc))?;
        Ok(table)
    }

    /// How many lists there are.
    pub(crate) fn count(&self) -> usize {
        self.lists.len()
    }

    /// The notes of a list; one that isn't there has none.
    pub(crate) fn notes(&self, list: u32) -> &[u32] {
        match self.lists.get(list as usize) {
            Some(notes) => notes,
            None => &[],
        }
    }

    /// The lists, taken out.
    pub(crate) fn into_lists(self) -> Vec<Vec<u32>> {
        self.lists
    }

    /// Adds a list.
    fn add(&mut self, alloc: Global, list: Vec<u32>) -> Result<(), Memory> {
        self.longer.push(Vec::new(alloc))?;
        self.lists.push(list)?;
        Ok(())
    }

    /// The list with one more note, if it is there.
    fn found(&self, list: u32, note: u32) -> Option<u32> {
        let longer = self.longer.get(list as usize)?;
        for other in longer {
            if self.notes(*other).last().copied() == Some(note) {
                return Some(*other);
            }
        }
        None
    }

    /// Adds the list with one more note.
    fn add_longer(&mut self, alloc: Global, list: u32, note: u32) -> Result<u32, Memory> {
        let number = number_of(self.lists.len());
        let mut notes = Vec::new(alloc);
        for other in self.notes(list) {
            notes.push(*other)?;
        }
        notes.push(note)?;
        self.add(alloc, notes)?;
        if let Some(longer) = self.longer.get_mut(list as usize) {
            longer.push(number)?;
        }
        Ok(number)
    }

    /// The number of the list with one more note; none where it would be too long, or where there
    /// would be too many lists.
    pub(crate) fn with_note(
        &mut self,
        alloc: Global,
        list: u32,
        note: u32,
    ) -> Result<Option<u32>, Memory> {
        if let Some(found) = self.found(list, note) {
            return Ok(Some(found));
        }
        if self.notes(list).len() >= NOTE_LIMIT || self.lists.len() >= NOTE_LIST_LIMIT {
            return Ok(None);
        }
        Ok(Some(self.add_longer(alloc, list, note)?))
    }
}
