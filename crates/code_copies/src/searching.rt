//! The search for a plan of copies. No proof relies on what it finds, since that is checked.
mod copying;
mod homes;
mod lists;
mod looks;
mod ordering;
mod places;
mod roots;
mod sets;
mod tests_of_events;

use crate::known::{EventFact, Facts};
use crate::plan::Plan;
use crate::searching::copying::Search;
use crate::searching::looks::Looks;
use crate::searching::ordering::{RankedCopies, ranked};
use crate::searching::roots::Roots;
use actions::Event;
use code_language::{Code, PROC_LIMIT, RawCode};
use flow_base::Memory;
pub use lists::number_of;
pub use ordering::{FoundCopy, rank_at, ranks_of};
use std::alloc::Global;

/// How many copies a plan may have for each procedure of the code, besides `COPY_ROOM`.
///
/// Source: this project's choice.
pub const COPY_LIMIT: usize = 4;

/// How many copies the plan of any code may have besides.
///
/// Source: this project's choice.
pub const COPY_ROOM: usize = 1_024;

/// The greatest number of places that the copies of a plan have together.
///
/// Source: this project's choice.
pub const PLACE_LIMIT: usize = 1_000_000;

/// What is known where a start begins.
const AT_START: Facts = Facts {
    home: Some(0),
    event: EventFact::Is(Event::Start),
    is_rooted: false,
};

/// What is known where a reaction begins.
fn at_reaction(is_rooted: bool) -> Facts {
    Facts {
        home: Some(0),
        event: EventFact::NoneOf(0),
        is_rooted,
    }
}

/// How many copies a plan for so many procedures may have, by `COPY_LIMIT` and `COPY_ROOM`; no more
/// than code may have procedures.
///
/// Source: this project's choice.
pub fn copies_allowed(procs: usize) -> usize {
    let allowed = procs.saturating_mul(COPY_LIMIT).saturating_add(COPY_ROOM);
    allowed.min(PROC_LIMIT)
}

/// The numbers of the copies of the start and of a reaction, once all copies are made that these
/// want. None where there would be too many.
fn made_from(
    alloc: Global,
    code: &RawCode,
    is_rooted: bool,
    search: &mut Search<'_>,
) -> Result<Option<(u32, u32)>, Memory> {
    let procs = code.procs.items();
    let start = search.copy_for(code.start, AT_START)?;
    let react = search.copy_for(code.react, at_reaction(is_rooted))?;
    search.make_all(alloc, procs, copies_allowed(procs.len()))?;
    if search.is_done() {
        Ok(Some((start, react)))
    } else {
        Ok(None)
    }
}

/// The copies that are wanted where procedures look at these things. None where there would be too
/// many.
fn copies_for(
    alloc: Global,
    code: &RawCode,
    looks: &Looks,
    roots: Roots,
) -> Result<Option<RankedCopies>, Memory> {
    let mut search = Search::new(alloc, looks, roots, code.react, PLACE_LIMIT);
    let firsts = made_from(alloc, code, roots.is_rooted, &mut search);
    let found = search.into_copies();
    match firsts? {
        Some((start, react)) => Ok(Some(ranked(alloc, found, start, react)?)),
        None => Ok(None),
    }
}

/// The plan of the copies that are wanted where procedures look at these things. None where there
/// would be too many.
fn plan_for(alloc: Global, code: &RawCode, looks: Looks) -> Result<Option<Plan>, Memory> {
    let roots = Roots::of(code);
    let found = copies_for(alloc, code, &looks, roots);
    let sets = looks.into_sets();
    match found? {
        Some(found) => Ok(Some(Plan {
            sets,
            copies: found.copies,
            start: found.start,
            react: found.react,
            keeps_root: roots.keeps_root,
            is_rooted: roots.is_rooted,
        })),
        None => Ok(None),
    }
}

/// A plan of copies by home and by event: a procedure has a copy for each home with which it is
/// called, where it looks at that home, and of these one for each event that it tests and one for
/// all others, as far as the event is known. Where the root is known to be active, a send is one to
/// a copy of the reaction for its event. None where there would be too many, by `COPY_LIMIT`,
/// `COPY_ROOM` and `PLACE_LIMIT`.
///
/// Its time grows with the places of the copies, and with the events that they test. `Memory` only
/// where memory was refused.
///
/// Source: this project's choice.
pub fn find(alloc: Global, code: &Code) -> Result<Option<Plan>, Memory> {
    let raw = code.raw();
    match Looks::of(alloc, raw)? {
        Some(looks) => plan_for(alloc, raw, looks),
        None => Ok(None),
    }
}

/// A plan of copies by home alone, where `find` has none or isn't wanted. None where there would
/// still be too many.
///
/// Its time grows with the places of the copies. `Memory` only where memory was refused.
///
/// Source: this project's choice.
pub fn find_by_home(alloc: Global, code: &Code) -> Result<Option<Plan>, Memory> {
    let raw = code.raw();
    let looks = Looks::at_homes(alloc, raw)?;
    plan_for(alloc, raw, looks)
}
