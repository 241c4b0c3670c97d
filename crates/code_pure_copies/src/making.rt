//! Code whose procedures are copies of those of other code.
ghost use Rattle.std.specs.Prelude.{
  ◌≡◌,
  ◌<◌,
  IfOk,
  IfSome,
  IsTrue,
  Some,
  length,
  map,
  slice_get,
};
ghost use Rattle.flow_base.specs.Lists.{items_of};
ghost use Rattle.code_copies.specs.SameRuns.{HasSameRuns};
ghost use Rattle.code_language.specs.Acceptance.{procs_of};
ghost use Rattle.code_language.specs.Code.{code_of, instrs_of};
ghost use Rattle.code_merging.specs.Merged.{under};
ghost use Rattle.code_pure_copies.specs.PureCopies.{ArePureCopies};
ghost use Rattle.code_shrink.specs.Numbers.{number_by};

use crate::naming::{is_copy, naming_copies};
use crate::plan::{Named, PureCopyPlan};
use crate::searching::{find_by_depth, find_by_notes};
use code_language::{Code, CodeEnd, Instr, RawCode, accept};
use code_shrink::with_procedures;
use flow_base::{List, Memory};
use std::alloc::Global;

/// A copy of these instructions that names these copies, if they are copies of what is named.
fn copy_of(
    alloc: Global,
    origins: &[u32],
    names: &[Named],
    instrs: &[Instr],
) -> Result<Option<List<Instr>>, Memory>
    requires { 0 < length origins.now }
    ensures { IfOk result (λ found. IfSome found (λ made.
        under (number_by origins.now) (instrs_of (items_of made)) ≡ instrs_of instrs.now)) }
{
    let mut made = List::of(Vec::new(alloc));
    for (place, instr) in instrs.iter().enumerate() {
        let Some(named) = names.get(place).copied() else {
            return Ok(None);
        };
        let Some(copy) = naming_copies(alloc, origins, named, instr)? else {
            return Ok(None);
        };
        made.push(copy)?;
    }
    Ok(Some(made))
}

/// A copy of the procedure with that number, if there is one, as `copy_of` makes it.
fn copy_of_origin(
    alloc: Global,
    procs: &[List<Instr>],
    origins: &[u32],
    names: &[Named],
    origin: u32,
) -> Result<Option<List<Instr>>, Memory>
    requires { 0 < length origins.now }
    ensures { IfOk result (λ found. IfSome found (λ made.
        Some (under (number_by origins.now) (instrs_of (items_of made)))
        ≡ slice_get (procs_of procs.now) origin)) }
{
    match procs.get(origin as usize) {
        Some(instrs) => copy_of(alloc, origins, names, instrs.items()),
        None => Ok(None),
    }
}

/// Copies of procedures, one for each origin, if the names are such.
fn copies_of(
    alloc: Global,
    procs: &[List<Instr>],
    origins: &[u32],
    names: &[Vec<Named>],
) -> Result<Option<List<List<Instr>>>, Memory>
    requires { 0 < length origins.now }
    ensures { IfOk result (λ found. IfSome found (λ made.
        map (λ is. Some (under (number_by origins.now) is)) (procs_of (items_of made))
        ≡ map (slice_get (procs_of procs.now)) origins.now)) }
{
    let mut made = List::of(Vec::new(alloc));
    for (number, origin) in origins.iter().enumerate() {
        let Some(named) = names.get(number) else {
            return Ok(None);
        };
        let Some(copy) = copy_of_origin(alloc, procs, origins, named, *origin)? else {
            return Ok(None);
        };
        made.push(copy)?;
    }
    Ok(Some(made))
}

/// Whether the copies with which a start and a reaction begin are such of their procedures.
fn are_firsts(origins: &[u32], plan: &PureCopyPlan, raw: &RawCode) -> bool
    requires { 0 < length origins.now }
    ensures start { IsTrue result → number_by origins.now plan.now.start ≡ raw.now.start }
    ensures react { IsTrue result → number_by origins.now plan.now.react ≡ raw.now.react }
{
    is_copy(origins, plan.start, raw.start) && is_copy(origins, plan.react, raw.react)
}

/// The code that is made by a plan with these origins, before it is accepted. None where what the
/// plan names aren't copies of what is named.
fn made_raw(
    alloc: Global,
    raw: &RawCode,
    plan: &PureCopyPlan,
    origins: &[u32],
) -> Result<Option<RawCode>, Memory>
    requires { 0 < length origins.now }
    ensures { IfOk result (λ found. IfSome found (λ made.
        ArePureCopies (code_of raw.now) (code_of made) origins.now)) }
{
    if !are_firsts(origins, plan, raw) {
        return Ok(None);
    }
    let Some(procs) = copies_of(alloc, raw.procs.items(), origins, &plan.names)? else {
        return Ok(None);
    };
    let made = with_procedures(alloc, raw, procs, plan.start, plan.react)?;
    Ok(Some(made))
}

/// The code that is made by a plan, as it is accepted. None where it isn't, or where what the plan
/// names aren't copies of what is named.
fn made_by(
    alloc: Global,
    code: &Code,
    plan: &PureCopyPlan,
    origins: &[u32],
) -> Result<Option<Code>, Memory>
    requires { 0 < length origins.now }
    ensures copies { IfOk result (λ found. IfSome found (λ made.
        ArePureCopies (code_of code.now) (code_of made) origins.now)) }
    ensures same { IfOk result (λ found. IfSome found (λ made.
        HasSameRuns (code_of code.now) (code_of made))) }
{
    let Some(raw) = made_raw(alloc, code.raw(), plan, origins)? else {
        return Ok(None);
    };
    match accept(alloc, raw) {
        Ok(made) => {
            // Only the proof reads the code: what is accepted is well formed.
            let _ = made.raw();
            Ok(Some(made))
        }
        Err(CodeEnd::Memory) => Err(Memory),
        // Copies may be too many.
        Err(CodeEnd::Fault(_)) => Ok(None),
    }
}

/// Code whose procedures are copies, and of which ones they are.
#[derive(Drop)]
pub struct Copies {
    /// The code.
    pub code: Code,
    /// For each of its procedures the one that it is a copy of.
    pub origins: Vec<u32>,
}

/// The code that is made by a plan, if there is one, with the origins of its copies.
fn planned(alloc: Global, code: &Code, plan: Option<PureCopyPlan>) -> Result<Option<Copies>, Memory>
    ensures copies { IfOk result (λ found. IfSome found (λ made.
        ArePureCopies (code_of code.now) (code_of made.code) made.origins.items)) }
    ensures same { IfOk result (λ found. IfSome found (λ made.
        HasSameRuns (code_of code.now) (code_of made.code))) }
{
    let Some(plan) = plan else {
        return Ok(None);
    };
    if plan.origins.is_empty() {
        return Ok(None);
    }
    match made_by(alloc, code, &plan, &plan.origins)? {
        Some(code) => Ok(Some(Copies {
            code,
            origins: plan.origins,
        })),
        None => Ok(None),
    }
}

/// Code in which a procedure has a copy for each list of notes that are pending where it begins,
/// if it comes to a `Play` without a `Begin` before it; each other procedure has one copy, if it is
/// named at all. Copies stand in the order of their origins.
///
/// None where no procedure has two copies, or where there would be too many, by `COPY_LIMIT` and
/// `COPY_ROOM` of `code_copies`, `NOTE_PLACE_LIMIT`, `PENDING_LIMIT` and `ROUND_LIMIT`. Which
/// copies there are is not proved, but that they are copies is: a procedure may also have more
/// copies than it needs.
///
/// Its time grows with the places of the copies. `Memory` only where memory was refused.
///
/// Source: this project's choice.
pub fn copy_by_notes(alloc: Global, code: &Code) -> Result<Option<Copies>, Memory>
    ensures copies { IfOk result (λ found. IfSome found (λ made.
        ArePureCopies (code_of code.now) (code_of made.code) made.origins.items)) }
    ensures same { IfOk result (λ found. IfSome found (λ made.
        HasSameRuns (code_of code.now) (code_of made.code))) }
{
    let plan = find_by_notes(alloc, code.raw())?;
    planned(alloc, code, plan)
}

/// Code in which a procedure has a copy for each depth from 0 to the given one at which it may
/// begin, if from it sends may nest without end: it comes to a send from which the code may come
/// back to that send. A copy calls and visits copies for its own depth and sends to those for the
/// next one, but for the greatest depth to those for the same. So only the sends of copies for the
/// greatest depth lead back, and with that depth as the bound on nested sends they fail. Each other
/// procedure has one copy, if it is named at all. Copies stand in the order of their origins.
///
/// None where no procedure has two copies; where an instruction has a note, or such a procedure
/// sends to the reaction by `Send`, which can't name another copy; and where there would be too
/// many copies or too many sends in a row, by `DEPTH_ROOM`, `SEND_LIMIT` and `SPREAD_LIMIT`. Which
/// copies there are is not proved, but that they are copies is.
///
/// Its time grows with the places of the code. `Memory` only where memory was refused.
///
/// Source: this project's choice.
pub fn copy_by_depth(alloc: Global, code: &Code, depth: u32) -> Result<Option<Copies>, Memory>
    ensures copies { IfOk result (λ found. IfSome found (λ made.
        ArePureCopies (code_of code.now) (code_of made.code) made.origins.items)) }
    ensures same { IfOk result (λ found. IfSome found (λ made.
        HasSameRuns (code_of code.now) (code_of made.code))) }
{
    let plan = find_by_depth(alloc, code.raw(), depth)?;
    planned(alloc, code, plan)
}
