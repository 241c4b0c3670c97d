//! Copies in the order of their origins.
use crate::plan::{Named, PureCopyPlan};
use crate::searching::growing::NamingCopy;
use code_copies::{FoundCopy, rank_at, ranks_of};
use flow_base::Memory;
use std::alloc::Global;

/// Gives the copies that are named the numbers that they have.
fn rename(names: &mut [Named], ranks: &[u32]) {
    for named in names {
        named.proc = rank_at(ranks, named.proc);
        if let Some(note) = named.note {
            named.note = Some(rank_at(ranks, note));
        }
    }
}

/// For each copy the procedure that it is a copy of.
fn origins_of(alloc: Global, copies: &[FoundCopy<NamingCopy>]) -> Result<Vec<u32>, Memory> {
    let mut origins = Vec::new(alloc);
    for found in copies {
        origins.push(found.copy.origin)?;
    }
    Ok(origins)
}

/// For each copy what its instructions name, by the numbers that the copies have.
fn renamed(
    alloc: Global,
    copies: Vec<FoundCopy<NamingCopy>>,
    ranks: &[u32],
) -> Result<Vec<Vec<Named>>, Memory> {
    let mut all = Vec::new(alloc);
    for found in copies {
        let copy = found.copy;
        let mut names = copy.names;
        rename(&mut names, ranks);
        all.push(names)?;
    }
    Ok(all)
}

/// The plan of the copies in the order of their origins, those of one procedure as they were found.
/// The copies of the start and of a reaction are given by the numbers that they had.
pub(crate) fn ordered(
    alloc: Global,
    mut copies: Vec<FoundCopy<NamingCopy>>,
    start: u32,
    react: u32,
) -> Result<PureCopyPlan, Memory> {
    copies.sort_by_key(|found| found.copy.origin)?;
    let ranks = ranks_of(alloc, &copies)?;
    let origins = origins_of(alloc, &copies)?;
    let names = renamed(alloc, copies, &ranks)?;
    Ok(PureCopyPlan {
        origins,
        names,
        start: rank_at(&ranks, start),
        react: rank_at(&ranks, react),
    })
}
