//! Code in which no call has a note.
ghost use Rattle.std.specs.Prelude.{IfOk, IfSome};
ghost use Rattle.code_language.specs.Code.{code_of};
ghost use Rattle.code_notes.specs.Whole.{IsNoteless};

use crate::checking::is_right;
use crate::making::made;
use crate::played::are_played;
use crate::searching::find;
use code_language::{Code, CodeEnd};
use flow_base::Memory;
use std::alloc::Global;

/// Code without notes, and which `Play`s its new procedures stand for.
#[derive(Drop)]
pub struct Noteless {
    /// The code.
    pub code: Code,
    /// For each new procedure, in their order, the procedure of the code that was given that has the
    /// `Play`s for which it stands.
    pub played: Vec<u32>,
}

/// Code that has the same runs, and neither a note nor `Play` nor `Begin`. In place of a `Play` it
/// calls a new procedure that runs the notes of the calls above the base. The new procedures come
/// first, one for each procedure and each list of notes that a `Play` of it runs, and then the
/// procedures of the code in their order.
///
/// None where the notes that a `Play` runs aren't the same whichever way a run came there, or
/// aren't found to be, or are more than `NOTE_LIMIT`; where there would be over `PLAYER_LIMIT` new
/// procedures; where no procedure returns 0; and where the code would be too high, too much work or
/// too large. Its time grows with the code times how often it has to be gone over until there is no
/// news. `Memory` only where memory was refused.
///
/// Source: this project's choice.
pub fn without_notes(alloc: Global, code: &Code) -> Result<Option<Noteless>, Memory>
    ensures { IfOk result (λ found. IfSome found (λ noteless.
        IsNoteless (code_of code.now) (code_of noteless.code) noteless.played.items)) }
{
    let raw = code.raw();
    let Some(plan) = find(alloc, raw)? else {
        return Ok(None);
    };
    if !is_right(&plan, raw) {
        return Ok(None);
    }
    if !are_played(&plan, raw) {
        return Ok(None);
    }
    match made(alloc, raw, &plan) {
        Ok(code) => Ok(Some(Noteless {
            code,
            played: plan.played,
        })),
        Err(CodeEnd::Fault(_)) => Ok(None),
        Err(CodeEnd::Memory) => Err(Memory),
    }
}
