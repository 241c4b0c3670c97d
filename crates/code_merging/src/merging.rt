//! Code in which equal procedures are one.
ghost use Rattle.std.specs.Prelude.{◌≡◌, ◌<◌, IfOk, length, map};
ghost use Rattle.flow_base.specs.Lists.{items_of};
ghost use Rattle.code_copies.specs.SameRuns.{HasSameRuns};
ghost use Rattle.code_language.specs.Acceptance.{procs_of};
ghost use Rattle.code_language.specs.Code.{code_of, instrs_of};
ghost use Rattle.code_merging.specs.Merged.{AreEqual, IsMerged, merged_code, under};
ghost use Rattle.code_shrink.specs.Numbers.{number_by};

use crate::finding::{is_table, own_numbers, table_of};
use code_language::{Code, Instr, RawCode};
use code_shrink::{number_at, renamed_instr};
use flow_base::{List, Memory};
use std::alloc::Global;

/// Instructions, each with the numbers that stand for the procedures that it names.
fn renamed_instrs(alloc: Global, instrs: &[Instr], numbers: &[u32]) -> Result<Vec<Instr>, Memory>
    requires { 0 < length numbers.now }
    ensures { IfOk result (λ made. instrs_of made.items
        ≡ under (number_by numbers.now) (instrs_of instrs.now)) }
{
    let mut made = Vec::new(alloc);
    for instr in instrs {
        let renamed = renamed_instr(alloc, instr, numbers)?;
        made.push(renamed)?;
    }
    Ok(made)
}

/// The procedures, each with the numbers that stand for those that it names.
fn renamed_procs(
    alloc: Global,
    procs: &[List<Instr>],
    numbers: &[u32],
) -> Result<List<List<Instr>>, Memory>
    requires { 0 < length numbers.now }
    ensures { IfOk result (λ made. procs_of (items_of made)
        ≡ map (under (number_by numbers.now)) (procs_of procs.now)) }
{
    let mut made = List::of(Vec::new(alloc));
    for instrs in procs {
        let renamed = renamed_instrs(alloc, instrs.items(), numbers)?;
        made.push(List::of(renamed))?;
    }
    Ok(made)
}

/// The code in which procedures stand for others, as it is written.
fn merged_raw(alloc: Global, raw: RawCode, numbers: &[u32]) -> Result<RawCode, Memory>
    requires { 0 < length numbers.now }
    ensures { IfOk result (λ made. code_of made
        ≡ merged_code (number_by numbers.now) (code_of raw)) }
{
    let procs = renamed_procs(alloc, raw.procs.items(), numbers)?;
    Ok(RawCode {
        start: number_at(numbers, raw.start),
        react: number_at(numbers, raw.react),
        states: raw.states,
        vars: raw.vars,
        events: raw.events,
        procs,
    })
}

/// The code in which procedures stand for equal ones.
fn by_table(alloc: Global, code: Code, numbers: &[u32]) -> Result<Code, Memory>
    requires some { 0 < length numbers.now }
    requires equal { AreEqual (number_by numbers.now) (code_of code).procedures }
    ensures { IfOk result (λ made. code_of made
        ≡ merged_code (number_by numbers.now) (code_of code)) }
{
    let raw = merged_raw(alloc, code.into_raw(), numbers)?;
    let made = Code::of_well_formed(alloc, raw)?;
    Ok(made)
}

/// Code in which equal procedures are one, and which one it is.
#[derive(Drop)]
pub struct Merged {
    /// The code.
    pub code: Code,
    /// For each procedure the one that stands for it: itself, or a lower one that is equal to it.
    pub numbers: Vec<u32>,
}

/// The code in which the lowest of procedures that are equal stands for all of them: with the
/// numbers that stand for what they name they have the same instructions. The others keep their
/// numbers, and are named nowhere then. Procedures that are equal may be left apart.
///
/// Its time and its memory grow with the code, as those of `accept` do. `Memory` only where memory
/// was refused.
///
/// Source: this project's choice.
pub fn merge(alloc: Global, code: Code) -> Result<Merged, Memory>
    ensures merged { IfOk result
        (λ made. IsMerged (code_of code) (code_of made.code) made.numbers.items) }
    ensures same { IfOk result (λ made. HasSameRuns (code_of code) (code_of made.code)) }
    ensures size { IfOk result
        (λ made. length made.numbers.items ≡ length (code_of code).procedures.procs) }
{
    let numbers = table_of(alloc, &code)?;
    if !is_table(&code, &numbers) {
        let numbers = own_numbers(alloc, numbers.len())?;
        return Ok(Merged { code, numbers });
    }
    let code = by_table(alloc, code, &numbers)?;
    Ok(Merged { code, numbers })
}
