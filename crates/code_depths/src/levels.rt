//! The search for levels of procedures: each falls, from the greatest number on, until none has to.
//! What is proved does not rest on it.

use code_language::{Instr, RawCode};
use flow_base::{List, Memory};
use std::alloc::Global;

/// The most rounds of the search, in each of which it goes over all procedures down and up.
const ROUND_LIMIT: usize = 1_000;

/// The most places that the search goes over in all rounds together.
const LOOK_LIMIT: usize = 20_000_000;

/// A procedure has at most this level. Whether it had a higher one.
fn lower(levels: &mut [u32], proc: u32, level: u32) -> bool {
    if let Some(known) = levels.get_mut(proc as usize) {
        if level < *known {
            *known = level;
            return true;
        }
    }
    false
}

/// A note has at most this level, if there is one. Whether it had a higher one.
fn lower_note(levels: &mut [u32], note: Option<u32>, level: u32) -> bool {
    match note {
        Some(proc) => lower(levels, proc, level),
        None => false,
    }
}

/// What an instruction of a procedure of this level names is within it. Whether there is news.
fn lower_named(levels: &mut [u32], level: u32, instr: &Instr) -> bool {
    match instr {
        Instr::Call(proc, note) | Instr::Visit(proc, note) => {
            let is_lower = lower(levels, *proc, level);
            lower_note(levels, *note, level) || is_lower
        }
        Instr::SendTo(_, _, proc) => lower(levels, *proc, level.saturating_add(1)),
        Instr::Assign(_, _) | Instr::Emit(_) | Instr::Mark(_) | Instr::Clear(_) => false,
        Instr::Keep(_) | Instr::Unless(_, _) | Instr::Skip(_) | Instr::Send(_) => false,
        Instr::Play | Instr::Home(_) | Instr::Begin | Instr::Pass | Instr::Ret(_) => false,
    }
}

/// What a procedure names is within its level. Whether there is news.
fn spread_from(levels: &mut [u32], procs: &[List<Instr>], proc: usize) -> bool {
    let Some(instrs) = procs.get(proc) else {
        return false;
    };
    let Some(level) = levels.get(proc).copied() else {
        return false;
    };
    let mut news = false;
    for instr in instrs.items() {
        if lower_named(levels, level, instr) {
            news = true;
        }
    }
    news
}

/// Goes over all procedures twice, from the last one to the first, since calls go to lower ones,
/// and back. Whether there is news.
fn spread(levels: &mut [u32], procs: &[List<Instr>]) -> bool {
    let mut news = false;
    for proc in (0..procs.len()).rev() {
        if spread_from(levels, procs, proc) {
            news = true;
        }
    }
    for proc in 0..procs.len() {
        if spread_from(levels, procs, proc) {
            news = true;
        }
    }
    news
}

/// How many rounds the search may take, at least one.
fn rounds_for(procs: &[List<Instr>]) -> usize {
    let mut places: usize = 1;
    for instrs in procs {
        places = places.saturating_add(instrs.items().len());
    }
    (LOOK_LIMIT / places.max(1)).clamp(1, ROUND_LIMIT)
}

/// A level for each procedure: the least depth at which it can begin, where all were found in time,
/// and the greatest number for one that is never reached.
pub(crate) fn levels_of(alloc: Global, code: &RawCode) -> Result<Vec<u32>, Memory> {
    let procs = code.procs.items();
    let mut levels = vec![in alloc; u32::MAX; procs.len()]?;
    lower(&mut levels, code.start, 0);
    lower(&mut levels, code.react, 0);
    for _ in 0..rounds_for(procs) {
        if !spread(&mut levels, procs) {
            break;
        }
    }
    Ok(levels)
}
