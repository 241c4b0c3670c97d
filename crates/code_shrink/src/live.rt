//! The procedures of code that are reached, with the ways and the reached places of each.
ghost use Rattle.std.specs.Prelude.{
  ◌≡◌,
  ◌<◌,
  ◌≤◌,
  ℕ,
  Bool,
  IfOk,
  OnOk,
  List,
  Some,
  Vec,
  length,
  map,
  slice_get,
};
ghost use Rattle.std.specs.declared.alloc.Global.{Global as Heap};
ghost use Rattle.code_language.specs.Code.{code_of};
ghost use Rattle.code_language.specs.Instrs.{Instr as Obeyed};
ghost use Rattle.code_language.specs.WellFormed.{IsCode};
ghost use Rattle.code_language.specs.declared.limits.TheConstants.{INSTR_LIMIT};
ghost use Rattle.code_shrink.specs.Search as spec;
ghost use Rattle.code_shrink.specs.Slides.{straight_ways};
ghost use Rattle.code_shrink.specs.Whole.{IsExact};
ghost use Rattle.code_shrink.specs.declared.places.Way.{Way as FoundWay};

use crate::constants::no_data;
use crate::places::{Way, reached_places};
use crate::search::Search;
use crate::ways::ways_of;
use active_config::Marks;
use code_language::{Code, RawCode};
use flow_base::Memory;
use std::alloc::Global;

/// What is reached of code once constant tests are decided and jumps lead past skips.
#[derive(Drop)]
pub struct Live {
    /// For each procedure whether it is reached: from those of the start and of a reaction, by what
    /// reached places name.
    pub live: Vec<bool>,
    /// For each procedure, also one that isn't reached, which of its places are reached from its
    /// first one.
    pub flags: Vec<Vec<bool>>,
    /// For each procedure, also one that isn't reached, the way of each of its places.
    pub ways: Vec<Vec<Way>>,
}

/// The ways of each procedure.
fn all_ways(alloc: Global, code: &Code) -> Result<Vec<Vec<Way>>, Memory>
    ensures { IfOk result (λ ways. spec.items_in ways.items
        ≡ map straight_ways (code_of code.now).procedures.procs) }
{
    let raw = code.raw();
    // A constant test reads no datum and no mark, so any serve.
    let vals = no_data(alloc)?;
    let marks = Marks::make(alloc, code.shape())?;
    let mut all = Vec::new(alloc);
    for procedure in raw.procs.items() {
        let ways = ways_of(alloc, procedure.items(), &vals, &marks)?;
        all.push(ways)?;
    }
    Ok(all)
}

/// The reached places of each procedure.
fn all_places(alloc: Global, ways: &[Vec<Way>]) -> Result<Vec<Vec<bool>>, Memory>
    requires { (p : ℕ) (own : Vec FoundWay Heap) → slice_get ways.now p ≡ Some own
        → length own.items ≤ INSTR_LIMIT }
    ensures { (procs : List (List Obeyed)) → map straight_ways procs ≡ spec.items_in ways.now
        → IfOk result (λ flags. spec.EachReached procs (spec.items_in flags.items)) }
{
    let mut all = Vec::new(alloc);
    for own in ways {
        let flags = reached_places(alloc, own)?;
        all.push(flags)?;
    }
    Ok(all)
}

/// The search at its start, which has found the procedures of the start and of a reaction.
fn started(alloc: Global, code: &RawCode) -> Result<Search, Memory>
    requires { IsCode (code_of code.now) }
    ensures { (flags : List (List Bool)) → IfOk result
        (spec.IsSearch (code_of code.now).procedures flags) }
{
    let found = vec![in alloc; false; code.procs.items().len()]?;
    let mut search = Search {
        found,
        todo: Vec::new(alloc),
    };
    search.find(code.start)?;
    search.find(code.react)?;
    Ok(search)
}

/// Finds what the reached places of a procedure name.
fn look_at(
    search: &mut Search,
    code: &RawCode,
    flags: &[Vec<bool>],
    proc: usize,
) -> Result<(), Memory>
    requires code { IsCode (code_of code.now) }
    requires flags { spec.EachReached (code_of code.now).procedures.procs
        (spec.items_in flags.now) }
    requires there { proc < length (code_of code.now).procedures.procs }
    requires size { length search.old.found.items ≡ length (code_of code.now).procedures.procs }
    ensures { OnOk result (spec.Finds
        (spec.NamedBy (code_of code.now).procedures (spec.items_in flags.now) proc)
        search.old search.new) }
{
    let instrs = code.procs.items()[proc].items();
    search.find_all(instrs, &flags[proc])
}

/// The procedures that are reached, by the reached places of each procedure.
fn all_live(alloc: Global, code: &RawCode, flags: &[Vec<bool>]) -> Result<Vec<bool>, Memory>
    requires code { IsCode (code_of code.now) }
    requires flags { spec.EachReached (code_of code.now).procedures.procs
        (spec.items_in flags.now) }
    ensures { IfOk result (λ live. IsExact live.items (spec.items_in flags.now)
        (code_of code.now).procedures) }
{
    let mut search = started(alloc, code)?;
    while let Some(proc) = search.todo.pop() {
        look_at(&mut search, code, flags, proc as usize)?;
    }
    Ok(search.found)
}

/// What is reached of code, exactly. A procedure is looked at once.
///
/// Its time grows with the number of instructions. `Memory` only where memory was refused.
pub fn live_procedures(alloc: Global, code: &Code) -> Result<Live, Memory>
    ensures exact { IfOk result (λ l. IsExact l.live.items (spec.flags_of l)
        (code_of code.now).procedures) }
    ensures ways { IfOk result (λ l. spec.ways_in l
        ≡ map straight_ways (code_of code.now).procedures.procs) }
{
    let raw = code.raw();
    let ways = all_ways(alloc, code)?;
    let flags = all_places(alloc, &ways)?;
    let live = all_live(alloc, raw, &flags)?;
    Ok(Live { live, flags, ways })
}
