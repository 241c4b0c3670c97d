//! The searches for plans of copies. No proof relies on what they find: what it names is checked.
mod growing;
mod levels;
mod lists;
mod nesting;
mod ordering;
mod playing;
mod wanting;

use crate::plan::PureCopyPlan;
use crate::searching::growing::Growing;
use crate::searching::levels::DepthSearch;
use crate::searching::nesting::{Nesting, have_notes};
use crate::searching::ordering::ordered;
use crate::searching::playing::Playing;
use crate::searching::wanting::Search;
use code_copies::copies_allowed;
use code_language::{Instr, RawCode};
use flow_base::{List, Memory};
pub use lists::PENDING_LIMIT;
pub use nesting::{SEND_LIMIT, SPREAD_LIMIT};
pub use playing::ROUND_LIMIT;
use std::alloc::Global;

/// The greatest number of instructions that the copies for notes have together.
///
/// Source: this project's choice.
pub const NOTE_PLACE_LIMIT: usize = 4_000_000;

/// How many instructions more than the code the copies by depth may have together. A chart of the
/// size that is read by hand has room for its copies, and the C of any code grows by at most some
/// hundred kilobytes.
///
/// Source: this project's choice.
pub const DEPTH_ROOM: usize = 4_000;

/// How many instructions the procedures have together.
fn places_of(procs: &[List<Instr>]) -> usize {
    let mut places: usize = 0;
    for instrs in procs {
        places = places.saturating_add(instrs.items().len());
    }
    places
}

/// Whether a procedure has two copies, where copies stand in the order of their origins.
fn has_two(origins: &[u32]) -> bool {
    let mut last: Option<u32> = None;
    for origin in origins {
        if last == Some(*origin) {
            return true;
        }
        last = Some(*origin);
    }
    false
}

/// The plan of the copies, with those of the start and of a reaction. None where one that is wanted
/// isn't made, or where no procedure has two.
fn plan_of(
    alloc: Global,
    copies: Growing,
    start: u32,
    react: u32,
) -> Result<Option<PureCopyPlan>, Memory> {
    if !copies.is_done() {
        return Ok(None);
    }
    let plan = ordered(alloc, copies.into_copies(), start, react)?;
    Ok(if has_two(&plan.origins) {
        Some(plan)
    } else {
        None
    })
}

/// Makes the copies that are wanted by notes. The numbers of those of the start and of a reaction.
fn make_by_notes(alloc: Global, code: &RawCode, search: &mut Search) -> Result<(u32, u32), Memory> {
    let procs = code.procs.items();
    let start = search.first_copy(code.start)?;
    let react = search.first_copy(code.react)?;
    search.make_all(alloc, procs, copies_allowed(procs.len()))?;
    Ok((start, react))
}

/// The plan of copies by notes, by the procedures that may run what is pending.
fn by_notes(
    alloc: Global,
    code: &RawCode,
    playing: Playing,
) -> Result<Option<PureCopyPlan>, Memory> {
    let mut search = Search::new(alloc, playing, NOTE_PLACE_LIMIT);
    let Ok((start, react)) = make_by_notes(alloc, code, &mut search) else {
        drop(search);
        return Err(Memory);
    };
    match search.into_copies() {
        Some(copies) => plan_of(alloc, copies, start, react),
        None => Ok(None),
    }
}

/// A plan of copies by the notes that are pending where procedures begin. None where no procedure
/// has two copies, or where there would be too many.
pub(crate) fn find_by_notes(alloc: Global, code: &RawCode) -> Result<Option<PureCopyPlan>, Memory> {
    match Playing::of(alloc, code.procs.items())? {
        Some(playing) => by_notes(alloc, code, playing),
        None => Ok(None),
    }
}

/// Which procedures need copies by depth. None where none does, where copies couldn't name what
/// they send to or what they note, or where it isn't found.
fn nesting_of(alloc: Global, code: &RawCode) -> Result<Option<Nesting>, Memory> {
    if have_notes(code.procs.items()) {
        return Ok(None);
    }
    let Some(nesting) = Nesting::of(alloc, code)? else {
        return Ok(None);
    };
    Ok(if nesting.has_any() && !nesting.sends_to_reaction(code) {
        Some(nesting)
    } else {
        None
    })
}

/// Makes the copies that are wanted by depth. The numbers of those of the start and of a reaction.
fn make_by_depth(
    alloc: Global,
    code: &RawCode,
    search: &mut DepthSearch,
) -> Result<(u32, u32), Memory> {
    let start = search.copy_at(code.start, 0)?;
    let react = search.copy_at(code.react, 0)?;
    search.make_all(alloc, code.procs.items())?;
    Ok((start, react))
}

/// The plan of copies by depth, by the procedures that need them.
fn by_depth(
    alloc: Global,
    code: &RawCode,
    nesting: Nesting,
    depth: u32,
) -> Result<Option<PureCopyPlan>, Memory> {
    let room = places_of(code.procs.items()).saturating_add(DEPTH_ROOM);
    let mut search = DepthSearch::new(alloc, nesting, depth, room);
    let Ok((start, react)) = make_by_depth(alloc, code, &mut search) else {
        drop(search);
        return Err(Memory);
    };
    plan_of(alloc, search.into_copies(), start, react)
}

/// A plan of copies by depth, up to the given one. None where no procedure has two copies, or where
/// there would be too many.
pub(crate) fn find_by_depth(
    alloc: Global,
    code: &RawCode,
    depth: u32,
) -> Result<Option<PureCopyPlan>, Memory> {
    match nesting_of(alloc, code)? {
        Some(nesting) => by_depth(alloc, code, nesting, depth),
        None => Ok(None),
    }
}
