//! The search for a plan of notes. No answer depends on it.
mod spreading;
mod table;

use crate::plan::{KnownNotes, PLAYER_LIMIT};
use crate::searching::spreading::Spread;
use crate::searching::table::NO_NOTES;
use code_copies::number_of;
use code_language::{Instr, RawCode};
use flow_base::Memory;
use std::alloc::Global;

/// An equal list.
fn copy_list(alloc: Global, list: &[u32]) -> Result<Vec<u32>, Memory> {
    let mut copy = Vec::new(alloc);
    for note in list {
        copy.push(*note)?;
    }
    Ok(copy)
}

/// The new procedures so far, with the last one that runs each list, if there is one.
#[derive(Drop)]
struct Players {
    of_list: Vec<Option<u32>>,
    players: Vec<Vec<u32>>,
    played: Vec<u32>,
}

impl Players {
    /// The new procedure that runs the list for `Play`s of this procedure, if there is one yet,
    /// where procedures are gone through one after the other.
    fn found(&self, list: u32, proc: u32) -> Option<u32> {
        let player = (*self.of_list.get(list as usize)?)?;
        let own = *self.played.get(player as usize)?;
        if own == proc { Some(player) } else { None }
    }

    /// The new procedure that runs the list for `Play`s of this procedure, which is made where
    /// there is none yet.
    fn for_list(
        &mut self,
        alloc: Global,
        list: u32,
        notes: &[u32],
        proc: u32,
    ) -> Result<u32, Memory> {
        if let Some(player) = self.found(list, proc) {
            return Ok(player);
        }
        let number = number_of(self.players.len());
        if let Some(last) = self.of_list.get_mut(list as usize) {
            *last = Some(number);
        }
        let copy = copy_list(alloc, notes)?;
        self.players.push(copy)?;
        self.played.push(proc)?;
        Ok(number)
    }
}

/// Finds what stands for each `Play` of a procedure. Whether the notes of each are known.
fn find_players(
    alloc: Global,
    spread: &mut Spread,
    players: &mut Players,
    proc: usize,
    instrs: &[Instr],
) -> Result<bool, Memory> {
    for (place, instr) in instrs.iter().enumerate() {
        if let Instr::Play = instr {
            match spread.notes_at(proc, place) {
                None => return Ok(false),
                Some(NO_NOTES) => {}
                Some(list) => {
                    let notes = spread.table.notes(list);
                    let player = players.for_list(alloc, list, notes, number_of(proc))?;
                    spread.set_player(proc, place, player);
                }
            }
        }
    }
    Ok(true)
}

/// Finds what stands for each `Play`. None where the notes of one aren't known, or where there
/// would be too many new procedures.
fn with_players(
    alloc: Global,
    raw: &RawCode,
    mut spread: Spread,
) -> Result<Option<KnownNotes>, Memory> {
    let of_list = vec![in alloc; None; spread.table.count()]?;
    let mut players = Players {
        of_list,
        players: Vec::new(alloc),
        played: Vec::new(alloc),
    };
    for (proc, instrs) in raw.procs.items().iter().enumerate() {
        if !find_players(alloc, &mut spread, &mut players, proc, instrs.items())?
            || players.players.len() > PLAYER_LIMIT
        {
            return Ok(None);
        }
    }
    Ok(Some(KnownNotes {
        lists: spread.table.into_lists(),
        players: players.players,
        played: players.played,
        places: spread.places,
    }))
}

/// What is known of the notes at each place. None where those that a `Play` would run aren't known.
///
/// It goes over the code until there is no news, at most 1,000 times. `Memory` only where memory
/// was refused.
pub(crate) fn find(alloc: Global, raw: &RawCode) -> Result<Option<KnownNotes>, Memory> {
    let mut spread = Spread::new(alloc, raw)?;
    spread.begin(raw);
    spread.spread(alloc, raw)?;
    with_players(alloc, raw, spread)
}
