//! How much an event of code can take at most.
ghost use Rattle.std.specs.Prelude.{ℕ, IfOk, IfSome};
ghost use Rattle.code_language.specs.Code.{code_of};
ghost use Rattle.code_counts.specs.Claims.{HasCounts, HasMost};

use crate::checking::{is_certificate, most_of};
use crate::finding::find;
use crate::numbers::{Counted, Counts};
use code_language::Code;
use flow_base::Memory;
use std::alloc::Global;

/// The most of what is counted that a start or a reaction of the code takes, whatever the bounds
/// of a run.
///
/// None where no such number up to `COUNT_LIMIT` was found, as where visits or sends go round: it
/// says nothing of the code. Procedures that are never reached count too, so shrink code before.
///
/// # Errors
///
/// `Memory` where memory runs out.
pub fn most(alloc: Global, counted: Counted, code: &Code) -> Result<Option<u32>, Memory>
    ensures { IfOk result
        (λ found. IfSome found (λ most. HasMost counted (code_of code.now) most)) }
{
    let raw = code.raw();
    let Some(rows) = find(alloc, counted, raw)? else {
        return Ok(None);
    };
    if is_certificate(counted, &rows, raw) {
        Ok(Some(most_of(&rows, raw)))
    } else {
        Ok(None)
    }
}

/// How much a start or a reaction of the code takes at most, whatever the bounds of a run.
///
/// None where one of the numbers isn't found, as `most` says: it says nothing of the code.
///
/// # Errors
///
/// `Memory` where memory runs out.
pub fn counts(alloc: Global, code: &Code) -> Result<Option<Counts>, Memory>
    ensures { IfOk result (λ found. IfSome found (λ counts. HasCounts (code_of code.now) counts)) }
{
    let Some(steps) = most(alloc, Counted::Steps, code)? else {
        return Ok(None);
    };
    let Some(outputs) = most(alloc, Counted::Outputs, code)? else {
        return Ok(None);
    };
    let Some(depth) = most(alloc, Counted::Depth, code)? else {
        return Ok(None);
    };
    let Some(notes) = most(alloc, Counted::Notes, code)? else {
        return Ok(None);
    };
    Ok(Some(Counts {
        steps,
        outputs,
        depth,
        notes,
    }))
}
