//! Smaller code of the same meaning.
ghost use Rattle.std.specs.Prelude.{◌≡◌, ◌<◌, IfOk, false, length, map, nat_lt};
ghost use Rattle.std.specs.List.{list_any};
ghost use Rattle.flow_base.specs.Lists.{items_of};
ghost use Rattle.code_language.specs.Acceptance.{procs_of};
ghost use Rattle.code_language.specs.Code.{code_of};
ghost use Rattle.code_language.specs.declared.limits.TheConstants.{INSTR_LIMIT};
ghost use Rattle.code_shrink.specs.Numbers.{number_by};
ghost use Rattle.code_shrink.specs.Origins.{HadNumbers};
ghost use Rattle.code_shrink.specs.Search.{flags_of, ways_in};
ghost use Rattle.code_shrink.specs.Shrunk.{IsShrunk};
ghost use Rattle.code_shrink.specs.Smaller.{straight};
ghost use Rattle.code_shrink.specs.Ways.{way_of};
ghost use Rattle.code_shrink.specs.Whole.{collected, AllReached};

use crate::live::{Live, live_procedures};
use crate::numbers::{number_at, numbers_of};
use crate::origins::origins_of;
use crate::smaller::smaller_procedure;
use crate::tables::with_procedures;
use code_language::{Code, Instr, RawCode};
use flow_base::{List, Memory};
use std::alloc::Global;

/// Smaller code, and where its procedures come from.
#[derive(Drop)]
pub struct Shrunk {
    /// The smaller code.
    pub code: Code,
    /// For each of its procedures the number that it had, in ascending order.
    pub origins: Vec<u32>,
}

/// Smaller code of the same meaning: constant tests are decided, jumps lead past jumps, and only
/// what is reached then is left. A test that divides by zero stays, since it is a fault of the run.
///
/// Its time and its memory grow with the code. `Memory` only where memory was refused.
///
/// Source: this project's choice.
pub fn shrink(alloc: Global, code: &Code) -> Result<Code, Memory>
    ensures { IfOk result (λ smaller. IsShrunk (code_of code.now) (code_of smaller)) }
{
    let shrunk = shrink_with_origins(alloc, code)?;
    Ok(shrunk.code)
}

/// The smaller code that `shrink` gives, with the numbers that its procedures had.
///
/// Its time and its memory grow with the code. `Memory` only where memory was refused.
///
/// Source: this project's choice.
pub fn shrink_with_origins(alloc: Global, code: &Code) -> Result<Shrunk, Memory>
    ensures shrunk { IfOk result (λ shrunk. IsShrunk (code_of code.now) (code_of shrunk.code)) }
    ensures origins { IfOk result (λ shrunk. HadNumbers (code_of code.now).procedures
        (code_of shrunk.code).procedures shrunk.origins.items) }
{
    let made = smaller_raw(alloc, code)?;
    let origins = made.origins;
    let code = Code::of_well_formed(alloc, made.raw)?;
    Ok(Shrunk { code, origins })
}

/// The smaller code as it is written, and where its procedures come from.
#[derive(Drop)]
struct Made {
    /// The smaller code.
    raw: RawCode,
    /// The numbers that its procedures had.
    origins: Vec<u32>,
}

/// The smaller code, as it is written.
fn smaller_raw(alloc: Global, code: &Code) -> Result<Made, Memory>
    ensures shrunk { IfOk result (λ made. IsShrunk (code_of code.now) (code_of made.raw)) }
    ensures origins { IfOk result (λ made. HadNumbers (code_of code.now).procedures
        (code_of made.raw).procedures made.origins.items) }
{
    let kept = kept_procedures(alloc, code)?;
    let origins = kept.origins;
    let raw = with_procedures(alloc, code.raw(), kept.procs, kept.start, kept.react)?;
    Ok(Made { raw, origins })
}

/// What is kept of the procedures.
#[derive(Drop)]
struct Kept {
    /// The procedure of the start.
    start: u32,
    /// The procedure of a reaction.
    react: u32,
    /// The procedures.
    procs: List<List<Instr>>,
    /// The numbers that they had.
    origins: Vec<u32>,
}

/// What is kept of the procedures of the code.
fn kept_procedures(alloc: Global, code: &Code) -> Result<Kept, Memory>
    ensures { IfOk result (λ kept. HadNumbers (code_of code.now).procedures (record {
      procs = procs_of (items_of kept.procs);
      start = kept.start;
      react = kept.react;
    }) kept.origins.items) }
{
    let live = live_procedures(alloc, code)?;
    let raw = code.raw();
    let origins = origins_of(alloc, &live.live)?;
    let numbers = numbers_of(alloc, &live.live)?;
    let procs = smaller_procs(alloc, raw.procs.items(), &live, &numbers)?;
    Ok(Kept {
        start: number_at(&numbers, raw.start),
        react: number_at(&numbers, raw.react),
        procs,
        origins,
    })
}

/// The reached procedures, smaller, in their order.
fn smaller_procs(
    alloc: Global,
    procs: &[List<Instr>],
    live: &Live,
    numbers: &[u32],
) -> Result<List<List<Instr>>, Memory>
    requires reached { AllReached live.now.live.items (flags_of live.now) (procs_of procs.now) }
    requires ways { ways_in live.now ≡ map (λ is. map way_of (straight is)) (procs_of procs.now) }
    requires short { list_any (λ instrs. nat_lt INSTR_LIMIT (length instrs)) (procs_of procs.now)
        ≡ false }
    requires numbers { 0 < length numbers.now }
    ensures { IfOk result (λ smaller. procs_of (items_of smaller)
        ≡ collected (number_by numbers.now) live.now.live.items (flags_of live.now)
        (procs_of procs.now)) }
{
    let mut smaller = List::of(Vec::new(alloc));
    for (p, instrs) in procs.iter().enumerate() {
        if live.live[p] {
            let (ways, flags) = (&live.ways[p], &live.flags[p]);
            let made = smaller_procedure(alloc, instrs.items(), ways, flags, numbers)?;
            smaller.push(List::of(made))?;
        }
    }
    Ok(smaller)
}
