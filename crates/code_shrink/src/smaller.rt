//! A procedure made smaller.
ghost use Rattle.std.specs.Prelude.{
  ◌≡◌,
  ◌<◌,
  ◌≤◌,
  ℕ,
  Bool,
  List,
  IfOk,
  length,
  map,
};
ghost use Rattle.code_language.specs.declared.limits.TheConstants.{INSTR_LIMIT};
ghost use Rattle.code_language.specs.Code.{instr_of, instrs_of};
ghost use Rattle.code_language.specs.Instrs.{Cond, Unless};
ghost use Rattle.code_shrink.specs.Kept.{AreCounts, Counts, straightened};
ghost use Rattle.code_shrink.specs.Numbers.{number_by};
ghost use Rattle.code_shrink.specs.Smaller as spec;
ghost use Rattle.code_shrink.specs.Ways.{way_of};

use crate::kept::{count_from, is_kept, kept_within};
use crate::places::Way;
use crate::renamed::{copy_cond, renamed_instr};
use code_language::Instr;
use flow_base::Memory;
use std::alloc::Global;

/// An instruction that is kept, with the jump that is left of it; `counts` has how many places are
/// kept from each place after it on, the next one last.
fn recounted(
    alloc: Global,
    instr: &Instr,
    way: Way,
    counts: &[u32],
    numbers: &[u32],
) -> Result<Instr, Memory>
    requires counts { AreCounts counts.now }
    requires numbers { 0 < length numbers.now }
    ensures { (slides : List ℕ) (kept : List Bool)
        → way_of (straightened (instr_of instr.now) slides) ≡ way → Counts kept counts.now
        → IfOk result (λ made. instr_of made ≡ spec.recounted (number_by numbers.now)
        (straightened (instr_of instr.now) slides) kept) }
{
    match way {
        Way::Skips(over) => Ok(Instr::Skip(kept_within(counts, over))),
        Way::Tests(over) => tested(alloc, instr, kept_within(counts, over), numbers),
        Way::On => renamed_instr(alloc, instr, numbers),
        Way::Returns => renamed_instr(alloc, instr, numbers),
    }
}

/// A test that passes over so many instructions; any other instruction as it is, with new numbers.
fn tested(alloc: Global, instr: &Instr, over: u32, numbers: &[u32]) -> Result<Instr, Memory>
    requires { 0 < length numbers.now }
    ensures { (k : ℕ) (c : Cond) → instr_of instr.now ≡ Unless k c
        → IfOk result (λ made. instr_of made ≡ Unless over c) }
{
    match instr {
        Instr::Unless(_, cond) => Ok(Instr::Unless(over, copy_cond(alloc, cond)?)),
        _ => renamed_instr(alloc, instr, numbers),
    }
}

/// A procedure made smaller, by how a run goes on after each of its instructions once constant
/// tests are decided and jumps lead past skips, and by which of its places are reached then.
/// Procedures get their new numbers.
pub(crate) fn smaller_procedure(
    alloc: Global,
    instrs: &[Instr],
    ways: &[Way],
    flags: &[bool],
    numbers: &[u32],
) -> Result<Vec<Instr>, Memory>
    requires ways { ways.now ≡ map way_of (spec.straight (instrs_of instrs.now)) }
    requires flags { length flags.now ≡ length instrs.now }
    requires short { length instrs.now ≤ INSTR_LIMIT }
    requires numbers { 0 < length numbers.now }
    ensures { IfOk result (λ made. instrs_of made.items
        ≡ spec.smaller (number_by numbers.now) flags.now (instrs_of instrs.now)) }
{
    let mut counts = Vec::new(alloc);
    let mut smaller = Vec::new(alloc);
    for place in (0..instrs.len()).rev() {
        let way = ways[place];
        let kept = is_kept(flags[place], way, &counts);
        if kept {
            let instr = recounted(alloc, &instrs[place], way, &counts, numbers)?;
            smaller.push(instr)?;
        }
        let count = count_from(&counts, kept);
        counts.push(count)?;
    }
    smaller.reverse();
    Ok(smaller)
}
