//! What is known of the number at one place.
ghost use Rattle.std.specs.Prelude.{◌≡◌, [], if◌then◌else◌, IfOk};
ghost use Rattle.c_facts.specs.Facts as spec;
ghost use Rattle.c_facts.specs.Views.{numbers_of, sets_of};
ghost use Rattle.c_facts.specs.declared.known.Change.TheVariants as changes;

use crate::known::{Change, Numbers, Sets};
use crate::numbers::{all_in, common, copied, kept, some_agrees, united, with};
use flow_base::Memory;
use std::alloc::Global;

/// The same.
pub fn copied_sets(alloc: Global, sets: &Sets) -> Result<Sets, Memory>
    ensures { IfOk result (λ copy. sets_of copy ≡ sets_of sets.now) }
{
    match sets {
        Sets::Anything => Ok(Sets::Anything),
        Sets::OneOf(on, off) => {
            let first = copied(alloc, on)?;
            Ok(Sets::OneOf(first, copied(alloc, off)?))
        }
    }
}

/// Where the place has that number, or hasn't.
pub fn kept_sets(alloc: Global, sets: &Sets, way: bool, number: u32) -> Result<Sets, Memory>
    ensures { IfOk result (λ left. sets_of left ≡ spec.kept_sets way number (sets_of sets.now)) }
{
    match sets {
        Sets::Anything => Ok(Sets::Anything),
        Sets::OneOf(on, off) => {
            let first = kept(alloc, on, way, number)?;
            Ok(Sets::OneOf(first, kept(alloc, off, way, number)?))
        }
    }
}

/// Whether the place may have that number, or another one or none.
pub fn sets_admit(sets: &Sets, way: bool, number: u32) -> bool
    ensures { result ≡ spec.sets_admit way number (sets_of sets.now) }
{
    match sets {
        Sets::Anything => true,
        Sets::OneOf(on, off) => some_agrees(on, way, number) || some_agrees(off, way, number),
    }
}

/// The numbers, or none.
fn copied_if(alloc: Global, numbers: &Numbers, may: bool) -> Result<Numbers, Memory>
    ensures { IfOk result (λ copy.
        numbers_of copy ≡ (if may then numbers_of numbers.now else [])) }
{
    if may {
        copied(alloc, numbers)
    } else {
        Ok(Numbers::Empty)
    }
}

/// Where the home may have its number, or another one or none.
pub fn lowered_sets(alloc: Global, sets: &Sets, may: bool, other: bool) -> Result<Sets, Memory>
    ensures { IfOk result (λ left. sets_of left ≡ spec.lowered_sets may other (sets_of sets.now)) }
{
    match sets {
        Sets::Anything => Ok(Sets::Anything),
        Sets::OneOf(on, off) => {
            let first = copied_if(alloc, on, may)?;
            Ok(Sets::OneOf(first, copied_if(alloc, off, other)?))
        }
    }
}

/// Whether no number is left.
pub fn is_empty(sets: &Sets) -> bool
    ensures { result ≡ spec.is_empty (sets_of sets.now) }
{
    match sets {
        Sets::Anything => false,
        Sets::OneOf(Numbers::Empty, Numbers::Empty) => true,
        Sets::OneOf(_, _) => false,
    }
}

/// What holds if one of both holds.
pub fn joined_sets(alloc: Global, first: &Sets, second: &Sets, same: bool) -> Result<Sets, Memory>
    ensures { IfOk result (λ all. sets_of all
        ≡ spec.joined_sets same (sets_of first.now) (sets_of second.now)) }
{
    if !same {
        return Ok(Sets::Anything);
    }
    match first {
        Sets::Anything => Ok(Sets::Anything),
        Sets::OneOf(on, off) => match second {
            Sets::Anything => Ok(Sets::Anything),
            Sets::OneOf(other_on, other_off) => {
                let all_on = united(alloc, other_on, on)?;
                Ok(Sets::OneOf(all_on, united(alloc, other_off, off)?))
            }
        },
    }
}

/// Whether the second holds where the first does.
pub fn covers_sets(first: &Sets, second: &Sets, same: bool) -> bool
    ensures { result ≡ spec.covers_sets same (sets_of first.now) (sets_of second.now) }
{
    match second {
        Sets::Anything => true,
        Sets::OneOf(other_on, other_off) => match first {
            Sets::Anything => false,
            Sets::OneOf(on, off) => same && all_in(on, other_on) && all_in(off, other_off),
        },
    }
}

/// The same, whether the home has its number or not.
pub fn blurred(alloc: Global, sets: &Sets) -> Result<Sets, Memory>
    ensures { IfOk result (λ all. sets_of all ≡ spec.blurred (sets_of sets.now)) }
{
    match sets {
        Sets::Anything => Ok(Sets::Anything),
        Sets::OneOf(on, off) => {
            let all = united(alloc, off, on)?;
            Ok(Sets::OneOf(copied(alloc, &all)?, all))
        }
    }
}

/// After that became of the home, which has its own number.
pub fn moved_sets(alloc: Global, sets: &Sets, change: Change, value: u32) -> Result<Sets, Memory>
    ensures { IfOk result (λ all. sets_of all ≡ spec.moved_sets change value (sets_of sets.now)) }
{
    match change {
        Change::Stays => copied_sets(alloc, sets),
        Change::Varies => blurred(alloc, sets),
        Change::Becomes(number) => match sets {
            Sets::Anything => Ok(Sets::Anything),
            Sets::OneOf(on, off) => {
                let all = united(alloc, off, on)?;
                if number == value {
                    Ok(Sets::OneOf(all, Numbers::Empty))
                } else {
                    Ok(Sets::OneOf(Numbers::Empty, all))
                }
            }
        },
    }
}

/// That number, where there was one.
fn put_number(alloc: Global, numbers: &Numbers, number: u32) -> Result<Numbers, Memory>
    ensures { IfOk result (λ put. numbers_of put
        ≡ spec.put_number number (numbers_of numbers.now)) }
{
    match numbers {
        Numbers::Empty => Ok(Numbers::Empty),
        Numbers::One(_, _) => with(alloc, number, Numbers::Empty),
    }
}

/// After that became of the place.
pub fn put_sets(alloc: Global, sets: Sets, change: Change) -> Result<Sets, Memory>
    ensures { IfOk result (λ put. sets_of put ≡ spec.put_sets change (sets_of sets)) }
{
    match change {
        Change::Stays => Ok(sets),
        Change::Varies => {
            drop(sets);
            Ok(Sets::Anything)
        }
        Change::Becomes(number) => became(alloc, sets, number),
    }
}

/// After the place has that number.
fn became(alloc: Global, sets: Sets, number: u32) -> Result<Sets, Memory>
    ensures { IfOk result (λ put. sets_of put
        ≡ spec.put_sets (changes.Becomes number) (sets_of sets)) }
{
    match sets {
        Sets::Anything => {
            let on = with(alloc, number, Numbers::Empty)?;
            Ok(Sets::OneOf(on, with(alloc, number, Numbers::Empty)?))
        }
        Sets::OneOf(on, off) => {
            let first = put_number(alloc, &on, number)?;
            let second = put_number(alloc, &off, number)?;
            Ok(Sets::OneOf(first, second))
        }
    }
}

/// What holds if both hold.
pub fn met(alloc: Global, first: &Sets, second: &Sets) -> Result<Sets, Memory>
    ensures { IfOk result (λ both. sets_of both
        ≡ spec.met (sets_of first.now) (sets_of second.now)) }
{
    match first {
        Sets::Anything => copied_sets(alloc, second),
        Sets::OneOf(on, off) => match second {
            Sets::Anything => copied_sets(alloc, first),
            Sets::OneOf(other_on, other_off) => {
                let both_on = common(alloc, on, other_on)?;
                Ok(Sets::OneOf(both_on, common(alloc, off, other_off)?))
            }
        },
    }
}

/// What was known of a place before a call, and what the callee leaves of it.
pub fn framed_sets(
    alloc: Global,
    before: &Sets,
    left: &Sets,
    touched: bool,
    moved: bool,
    same: bool,
) -> Result<Sets, Memory>
    ensures { IfOk result (λ both. sets_of both
        ≡ spec.framed_sets touched moved same (sets_of before.now) (sets_of left.now)) }
{
    if !same || touched {
        return copied_sets(alloc, left);
    }
    if moved {
        let blur = blurred(alloc, before)?;
        met(alloc, &blur, left)
    } else {
        met(alloc, before, left)
    }
}

/// Whether the home has its number, if the sets tell it.
pub fn tells(sets: &Sets) -> Option<bool>
    ensures { result ≡ spec.tells (sets_of sets.now) }
{
    match sets {
        Sets::Anything => None,
        Sets::OneOf(on, off) => match on {
            Numbers::Empty => Some(false),
            Numbers::One(_, _) => match off {
                Numbers::Empty => Some(true),
                Numbers::One(_, _) => None,
            },
        },
    }
}

/// Whether some set of numbers is known.
pub fn is_known(sets: &Sets) -> bool
    ensures { result ≡ spec.is_known (sets_of sets.now) }
{
    match sets {
        Sets::Anything => false,
        Sets::OneOf(_, _) => true,
    }
}
