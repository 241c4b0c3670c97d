//! Which procedures stand for which: the lowest one of those that are equal for all of them.
ghost use Rattle.std.specs.Prelude.{◌≡◌, ◌<◌, ◌≤◌, ℕ, IfOk, IsTrue, length};
ghost use Rattle.code_language.specs.Acceptance.{procs_of};
ghost use Rattle.code_language.specs.declared.limits.TheConstants.{PROC_LIMIT};
ghost use Rattle.code_language.specs.Code.{code_of};
ghost use Rattle.code_merging.specs.Merged.{AreEqual, StandsFor, numbers_from};
ghost use Rattle.code_shrink.specs.Numbers.{number_by};

use crate::equal::are_same;
use crate::sums::sum_of;
use code_language::{Code, Instr};
use flow_base::{List, Memory};
use indexmap::IndexMap;
use std::alloc::Global;

/// How often all procedures are gone through. The first time finds what is equal by what it calls,
/// since calls go to lower procedures; the second one what is equal by what it visits or sends to.
const ROUNDS: u32 = 2;

/// Each procedure stands for itself.
pub(crate) fn own_numbers(alloc: Global, count: usize) -> Result<Vec<u32>, Memory>
    requires { count ≤ PROC_LIMIT }
    ensures { IfOk result (λ numbers. numbers.items ≡ numbers_from 0 count) }
{
    let mut numbers = Vec::new(alloc);
    for p in 0..count {
        numbers.push(p as u32)?;
    }
    Ok(numbers)
}

/// The procedure that stands for this one: the first one with its sum, where the two are equal.
fn stand_in(procs: &[List<Instr>], numbers: &[u32], first: u32, p: u32) -> u32
    requires { 0 < length numbers.now }
{
    let Some(one) = procs.get(first as usize) else {
        return p;
    };
    let Some(other) = procs.get(p as usize) else {
        return p;
    };
    if are_same(numbers, one.items(), other.items()) {
        first
    } else {
        p
    }
}

/// Whether each procedure stands for itself alone.
fn are_own(numbers: &[u32]) -> bool {
    for (p, number) in numbers.iter().enumerate() {
        if *number as usize != p {
            return false;
        }
    }
    true
}

/// Goes through all procedures once: each gets the number of the one that stands for it.
fn find_once(alloc: Global, procs: &[List<Instr>], numbers: &mut Vec<u32>) -> Result<(), Memory>
    requires few { length procs.now ≤ PROC_LIMIT }
    requires some { 0 < length numbers.old.items }
    requires size { length numbers.old.items ≡ length procs.now }
    ensures { length numbers.new.items ≡ length numbers.old.items }
{
    let mut firsts: IndexMap<u64, u32> = IndexMap::new(alloc);
    for (p, instrs) in procs.iter().enumerate() {
        let sum = sum_of(numbers, instrs.items());
        let number = numbers[p];
        if (number as usize) < p {
            // What was equal in the round before stays so.
            numbers[p] = numbers[number as usize];
        } else if let Some(first) = firsts.get(&sum).copied() {
            numbers[p] = stand_in(procs, numbers, first, p as u32);
        } else {
            firsts.insert(sum, p as u32)?;
            numbers[p] = p as u32;
        }
    }
    Ok(())
}

/// For each procedure one that stands for it.
fn stand_ins(alloc: Global, procs: &[List<Instr>]) -> Result<Vec<u32>, Memory>
    requires few { length procs.now ≤ PROC_LIMIT }
    requires some { 0 < length procs.now }
    ensures { IfOk result (λ numbers. length numbers.items ≡ length procs.now) }
{
    let mut numbers = own_numbers(alloc, procs.len())?;
    for _round in 0..ROUNDS {
        find_once(alloc, procs, &mut numbers)?;
    }
    Ok(numbers)
}

/// Whether the procedure that the table has for this one stands for it.
fn is_equal(procs: &[List<Instr>], numbers: &[u32], p: usize) -> bool
    requires some { 0 < length numbers.now }
    requires size { length numbers.now ≡ length procs.now }
    requires within { p < length procs.now }
    ensures { IsTrue result → StandsFor (number_by numbers.now) (procs_of procs.now) p }
{
    let first = numbers[p] as usize;
    first <= p && are_same(numbers, procs[first].items(), procs[p].items())
}

/// Whether each procedure is equal to the one that the table has for it.
fn are_equal(procs: &[List<Instr>], numbers: &[u32]) -> bool
    requires some { 0 < length numbers.now }
    requires size { length numbers.now ≡ length procs.now }
    ensures { IsTrue result → (p : ℕ) → p < length procs.now
        → StandsFor (number_by numbers.now) (procs_of procs.now) p }
{
    for p in 0..procs.len() {
        if !is_equal(procs, numbers, p) {
            return false;
        }
    }
    true
}

/// For each procedure of the code one that may stand for it.
pub(crate) fn table_of(alloc: Global, code: &Code) -> Result<Vec<u32>, Memory>
    ensures { IfOk result
        (λ numbers. length numbers.items ≡ length (code_of code.now).procedures.procs) }
{
    stand_ins(alloc, code.raw().procs.items())
}

/// Whether another procedure stands for one, and each procedure is equal to the one that the table
/// has for it.
pub(crate) fn is_table(code: &Code, numbers: &[u32]) -> bool
    requires size { length numbers.now ≡ length (code_of code.now).procedures.procs }
    ensures some { IsTrue result → 0 < length numbers.now }
    ensures equal { IsTrue result
        → AreEqual (number_by numbers.now) (code_of code.now).procedures }
{
    !are_own(numbers) && are_equal(code.raw().procs.items(), numbers)
}
