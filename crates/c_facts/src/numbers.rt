//! Sets of numbers.
ghost use Rattle.std.specs.Prelude.{◌≡◌, ◌∷◌, IfOk};
ghost use Rattle.c_facts.specs.Known as known;
ghost use Rattle.c_facts.specs.Facts as spec;
ghost use Rattle.c_facts.specs.Views.{numbers_of};

use crate::known::Numbers;
use flow_base::Memory;
use std::alloc::Global;

/// Whether the truth value is that one.
pub fn agrees(way: bool, found: bool) -> bool
    ensures { result ≡ spec.agrees way found }
{
    if way { found } else { !found }
}

/// Whether the number is one of these.
pub fn is_in(number: u32, numbers: &Numbers) -> bool
    ensures { result ≡ known.is_in number (numbers_of numbers.now) }
{
    match numbers {
        Numbers::Empty => false,
        Numbers::One(first, rest) => *first == number || is_in(number, rest),
    }
}

/// The number before others.
pub fn with(alloc: Global, number: u32, numbers: Numbers) -> Result<Numbers, Memory>
    ensures { IfOk result (λ all. numbers_of all ≡ number ∷ numbers_of numbers) }
{
    match Box::new(alloc, numbers) {
        Ok(holder) => Ok(Numbers::One(number, holder)),
        Err(_) => Err(Memory),
    }
}

/// The same numbers.
pub fn copied(alloc: Global, numbers: &Numbers) -> Result<Numbers, Memory>
    ensures { IfOk result (λ copy. numbers_of copy ≡ numbers_of numbers.now) }
{
    match numbers {
        Numbers::Empty => Ok(Numbers::Empty),
        Numbers::One(first, rest) => with(alloc, *first, copied(alloc, rest)?),
    }
}

/// Those that are that number, or those that aren't.
pub fn kept(alloc: Global, numbers: &Numbers, way: bool, number: u32) -> Result<Numbers, Memory>
    ensures { IfOk result (λ left. numbers_of left
        ≡ spec.kept way number (numbers_of numbers.now)) }
{
    match numbers {
        Numbers::Empty => Ok(Numbers::Empty),
        Numbers::One(first, rest) => {
            let left = kept(alloc, rest, way, number)?;
            if agrees(way, *first == number) {
                with(alloc, *first, left)
            } else {
                Ok(left)
            }
        }
    }
}

/// Whether there is one that is that number, or one that isn't.
pub fn some_agrees(numbers: &Numbers, way: bool, number: u32) -> bool
    ensures { result ≡ spec.some_agrees way number (numbers_of numbers.now) }
{
    match numbers {
        Numbers::Empty => false,
        Numbers::One(first, rest) => {
            agrees(way, *first == number) || some_agrees(rest, way, number)
        }
    }
}

/// All of both.
pub fn united(alloc: Global, second: &Numbers, first: &Numbers) -> Result<Numbers, Memory>
    ensures { IfOk result (λ all. numbers_of all
        ≡ spec.united (numbers_of first.now) (numbers_of second.now)) }
{
    match second {
        Numbers::Empty => copied(alloc, first),
        Numbers::One(number, rest) => {
            let all = united(alloc, rest, first)?;
            if is_in(*number, first) {
                Ok(all)
            } else {
                with(alloc, *number, all)
            }
        }
    }
}

/// Those that are in both.
pub fn common(alloc: Global, first: &Numbers, second: &Numbers) -> Result<Numbers, Memory>
    ensures { IfOk result (λ both. numbers_of both
        ≡ spec.common (numbers_of first.now) (numbers_of second.now)) }
{
    match first {
        Numbers::Empty => Ok(Numbers::Empty),
        Numbers::One(number, rest) => {
            let both = common(alloc, rest, second)?;
            if is_in(*number, second) {
                with(alloc, *number, both)
            } else {
                Ok(both)
            }
        }
    }
}

/// Whether each of the first ones is one of the second ones.
pub fn all_in(first: &Numbers, second: &Numbers) -> bool
    ensures { result ≡ spec.all_in (numbers_of first.now) (numbers_of second.now) }
{
    match first {
        Numbers::Empty => true,
        Numbers::One(number, rest) => is_in(*number, second) && all_in(rest, second),
    }
}
