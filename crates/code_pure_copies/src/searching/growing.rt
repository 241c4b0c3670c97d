//! The copies that a search wants, and those that it has made.
use crate::plan::Named;
use code_copies::{FoundCopy, number_of};
use code_language::Instr;
use flow_base::{List, Memory};
use indexmap::IndexSet;
use std::alloc::Global;

/// The instructions of a procedure; none where it isn't there.
pub(crate) fn instrs_at(procs: &[List<Instr>], proc: u32) -> &[Instr] {
    match procs.get(proc as usize) {
        Some(instrs) => instrs.items(),
        None => &[],
    }
}

/// A copy that is wanted.
#[derive(Clone, Copy, PartialEq, Eq, Hash)]
pub(crate) struct Wanted {
    /// The procedure.
    pub proc: u32,
    /// For which list of notes it is, by its number, or for which depth.
    pub purpose: u32,
}

/// A copy.
#[derive(Drop)]
pub(crate) struct NamingCopy {
    /// The procedure.
    pub origin: u32,
    /// What its instructions name.
    pub names: Vec<Named>,
}

/// The copies of a search.
#[derive(Drop)]
pub(crate) struct Growing {
    /// The copies that are wanted, each under its number.
    wanted: IndexSet<Wanted>,
    /// The first of them, with what they name.
    made: Vec<FoundCopy<NamingCopy>>,
    /// How many more places there may be.
    room: usize,
}

impl Growing {
    /// No copies, and room for so many places.
    pub(crate) fn new(alloc: Global, room: usize) -> Growing {
        Growing {
            wanted: IndexSet::new(alloc),
            made: Vec::new(alloc),
            room,
        }
    }

    /// The number of the copy, which is wanted from now on.
    pub(crate) fn number(&mut self, wanted: Wanted) -> Result<u32, Memory> {
        let (index, _) = self.wanted.insert_full(wanted)?;
        Ok(number_of(index))
    }

    /// The next copy that is to be made, for which it takes the room. None where each one is made,
    /// or where there is no more room.
    pub(crate) fn next(&mut self, procs: &[List<Instr>]) -> Option<Wanted> {
        let wanted = self.wanted.get_index(self.made.len()).copied();
        let Some(next) = wanted else {
            return None;
        };
        let size = instrs_at(procs, next.proc).len();
        if size > self.room {
            return None;
        }
        self.room -= size;
        wanted
    }

    /// Makes the next copy, whose instructions name these copies.
    pub(crate) fn make(&mut self, wanted: Wanted, names: Vec<Named>) -> Result<(), Memory> {
        let found = FoundCopy {
            number: number_of(self.made.len()),
            copy: NamingCopy {
                origin: wanted.proc,
                names,
            },
        };
        self.made.push(found)?;
        Ok(())
    }

    /// Whether each copy that is wanted is made.
    pub(crate) fn is_done(&self) -> bool {
        self.made.len() == self.wanted.len()
    }

    /// The copies.
    pub(crate) fn into_copies(self) -> Vec<FoundCopy<NamingCopy>> {
        self.made
    }
}
