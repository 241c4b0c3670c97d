//! Copies in the order of their procedures.
use crate::plan::{Place, ProcedureCopy};
use crate::searching::lists::number_of;
use flow_base::Memory;
use std::alloc::Global;

/// A copy that was found, under the number that it had then.
///
/// Source: this project's choice.
#[derive(Drop)]
pub struct FoundCopy<C> {
    /// The number.
    pub number: u32,
    /// The copy.
    pub copy: C,
}

/// For each number that a copy had the one that it has in the list; 0 for a number that none had.
/// `Memory` only where memory was refused.
///
/// Source: this project's choice.
pub fn ranks_of<C>(alloc: Global, copies: &[FoundCopy<C>]) -> Result<Vec<u32>, Memory> {
    let mut ranks = vec![in alloc; 0; copies.len()]?;
    for (rank, found) in copies.iter().enumerate() {
        if let Some(slot) = ranks.get_mut(found.number as usize) {
            *slot = number_of(rank);
        }
    }
    Ok(ranks)
}

/// The number that a copy has, by the one that it had; 0 where there is no such copy.
///
/// Source: this project's choice.
pub fn rank_at(ranks: &[u32], number: u32) -> u32 {
    ranks.get(number as usize).copied().unwrap_or(0)
}

/// Gives the copies that places name the numbers that they have.
fn rename(places: &mut [Option<Place>], ranks: &[u32]) {
    for slot in places {
        if let Some(place) = slot {
            place.copy = rank_at(ranks, place.copy);
            if let Some(note) = place.note {
                place.note = Some(rank_at(ranks, note));
            }
        }
    }
}

/// The copies alone, with the numbers that they have.
fn renamed(
    alloc: Global,
    found: Vec<FoundCopy<ProcedureCopy>>,
    ranks: &[u32],
) -> Result<Vec<ProcedureCopy>, Memory> {
    let mut copies = Vec::new(alloc);
    for each in found {
        let mut copy = each.copy;
        rename(&mut copy.places, ranks);
        copies.push(copy)?;
    }
    Ok(copies)
}

/// Puts the copies in the order of their procedures, those of one procedure as they are.
fn sort(copies: &mut Vec<FoundCopy<ProcedureCopy>>) -> Result<(), Memory> {
    copies.sort_by_key(|found| found.copy.key.proc)?;
    Ok(())
}

/// Copies in the order of their procedures, with those of the start and of a reaction.
#[derive(Drop)]
pub(crate) struct RankedCopies {
    /// The copies.
    pub copies: Vec<ProcedureCopy>,
    /// The number of the one of the start.
    pub start: u32,
    /// The number of the one of a reaction.
    pub react: u32,
}

/// The copies in the order of their procedures, with the numbers that they have then; `start` and
/// `react` are those that the copies of the start and of a reaction had.
pub(crate) fn ranked(
    alloc: Global,
    mut found: Vec<FoundCopy<ProcedureCopy>>,
    start: u32,
    react: u32,
) -> Result<RankedCopies, Memory> {
    sort(&mut found)?;
    let ranks = ranks_of(alloc, &found)?;
    Ok(RankedCopies {
        copies: renamed(alloc, found, &ranks)?,
        start: rank_at(&ranks, start),
        react: rank_at(&ranks, react),
    })
}
