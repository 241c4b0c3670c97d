//! The places of a procedure that are reached.
ghost use Rattle.std.specs.Prelude.{
  ◌≡◌,
  ◌<◌,
  ◌≤◌,
  ◌+◌,
  ℕ,
  IfOk,
  List,
  Some,
  true,
  false,
  length,
  map,
  replicate,
  slice_get,
  slice_index_or,
  slice_set,
};
ghost use Rattle.code_language.specs.Instrs.{Instr};
ghost use Rattle.code_language.specs.declared.limits.TheConstants.{INSTR_LIMIT};
ghost use Rattle.code_shrink.specs.Ways.{way_of, Marking};
ghost use Rattle.code_shrink.specs.Whole.{AreReached};

use flow_base::Memory;
use std::alloc::Global;

/// How a run goes on after an instruction.
#[derive(Clone, Copy)]
pub enum Way {
    /// At the next place.
    On,
    /// At the next place, or past so many more.
    Tests(u32),
    /// Past so many more.
    Skips(u32),
    /// Not in this procedure.
    Returns,
}

/// Marks the place, if it is there.
fn mark(flags: &mut [bool], place: usize)
    ensures { flags.new ≡ slice_set flags.old place true }
{
    if place < flags.len() {
        flags[place] = true;
    }
}

/// Marks what comes after a marked place.
#[tactic(auto, using(crate::proofs::Marking::after_way))]
fn mark_after(flags: &mut [bool], place: usize, way: Way)
    requires short { length flags.old ≤ INSTR_LIMIT }
    requires there { place < length flags.old }
    ensures { (t : List Instr) (x : Instr) → Marking t place flags.old
        → slice_index_or flags.old place false ≡ true → slice_get t place ≡ Some x → way_of x ≡ way
        → Marking t (place + 1) flags.new }
{
    match way {
        Way::On => mark(flags, place + 1),
        Way::Tests(over) => {
            mark(flags, place + 1);
            mark(flags, place + 1 + over as usize);
        }
        Way::Skips(over) => mark(flags, place + 1 + over as usize),
        Way::Returns => {}
    }
}

/// Marks the reached places, where none is marked yet.
fn mark_reached(flags: &mut [bool], ways: &[Way])
    requires short { length ways.now ≤ INSTR_LIMIT }
    requires none { flags.old ≡ replicate (length ways.now) false }
    ensures { (t : List Instr) → map way_of t ≡ ways.now → AreReached t flags.new }
{
    mark(flags, 0);
    for (place, way) in ways.iter().enumerate() {
        if flags[place] {
            mark_after(flags, place, *way);
        }
    }
}

/// Which places of a procedure are reached from its first one, by their ways.
///
/// Its time grows with the number of places. `Memory` only where memory was refused.
pub fn reached_places(alloc: Global, ways: &[Way]) -> Result<Vec<bool>, Memory>
    requires { length ways.now ≤ INSTR_LIMIT }
    ensures { (t : List Instr) → map way_of t ≡ ways.now
        → IfOk result (λ flags. AreReached t flags.items) }
{
    let mut flags = vec![in alloc; false; ways.len()]?;
    mark_reached(&mut flags, ways);
    Ok(flags)
}
