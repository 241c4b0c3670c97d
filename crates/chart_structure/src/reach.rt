//! Which junctions are reached from a list.
ghost use Rattle.std.specs.Prelude.{◌≡◌, ◌≤◌, ◌<◌, ◌↔◌, ℕ, List, length, slice_index, true, IfOk, OnOk};
ghost use Rattle.checked_chart.specs.Reached.{Reached, LeadsTo};
ghost use Rattle.chart_structure.specs.declared.net.Arrow.{Arrow};
ghost use Rattle.chart_structure.specs.Net as spec;
ghost use Rattle.chart_structure.specs.Marks.{has_mark, IsIn, IsWalk, Grows, Marked};
ghost use Rattle.chart_structure.specs.Reached.{links_of};

use crate::net::{Arrow, Net};
use checked_chart::Dest;
use std::alloc::{AllocError, Global};

/// What is reached from a list.
#[derive(Drop)]
pub struct Reach {
    /// The junctions.
    pub found: Vec<u32>,
    /// How many transitions stand in the list and in these junctions, or 2^64 - 1 where there are
    /// more.
    pub pairs: u64,
}

/// The junctions reached from a list, which get the mark, and how many transitions stand in the
/// list and in them. No junction has the mark yet. Fails only where memory does.
pub fn reached_from(
    alloc: Global,
    net: &Net<'_>,
    list: &[Arrow],
    mark: u32,
    marks: &mut [u32],
) -> Result<Reach, AllocError>
    requires some { 0 < mark }
    requires sized { length marks.old ≡ spec.junction_count net.now }
    requires fresh { (j : ℕ) → slice_index marks.old j < mark }
    requires dests { (a : Arrow) → spec.Has list.now a → spec.IsDest net.now a.to }
    ensures walk { IfOk result (λ r. IsWalk net.now list.now mark marks.new r.found.items r.pairs) }
    ensures all { OnOk result ((j : ℕ) → Reached (links_of net.now) list.now j → has_mark marks.new mark j ≡ true) }
{
    let mut found = Vec::new(alloc);
    let mut pairs = follow(net, list, mark, marks, &mut found, list.len() as u64)?;
    let mut next = 0;
    while next < found.len() {
        let junction = found[next];
        pairs = follow(net, net.junction(junction), mark, marks, &mut found, pairs)?;
        next += 1;
    }
    Ok(Reach { found, pairs })
}

/// Marks the junctions that a list leads to. The answer is the number of transitions, with theirs.
fn follow(
    net: &Net<'_>,
    list: &[Arrow],
    mark: u32,
    marks: &mut [u32],
    found: &mut Vec<u32>,
    pairs: u64,
) -> Result<u64, AllocError>
    requires sized { length marks.old ≡ spec.junction_count net.now }
    requires dests { (a : Arrow) → spec.Has list.now a → spec.IsDest net.now a.to }
    ensures walk { IfOk result (λ count. (root : List Arrow) → IsWalk net.now root mark marks.old found.old.items pairs
        → ((j : ℕ) → LeadsTo (links_of net.now) list.now j → Reached (links_of net.now) root j)
        → IsWalk net.now root mark marks.new found.new.items count) }
    ensures grows { OnOk result (Grows mark marks.old marks.new found.old.items found.new.items) }
    ensures marked { OnOk result (Marked net.now mark marks.new list.now) }
{
    let mut count = pairs;
    for arrow in list {
        match arrow.to {
            Dest::State(_) => {}
            Dest::Junction(junction) => {
                count = visit(net, junction, mark, marks, found, count)?;
            }
        }
    }
    Ok(count)
}

/// Marks a junction, where it isn't marked. The answer is the number of transitions, with its own.
fn visit(
    net: &Net<'_>,
    junction: u32,
    mark: u32,
    marks: &mut [u32],
    found: &mut Vec<u32>,
    pairs: u64,
) -> Result<u64, AllocError>
    requires sized { length marks.old ≡ spec.junction_count net.now }
    requires within { junction < spec.junction_count net.now }
    ensures walk { IfOk result (λ count. (root : List Arrow) → IsWalk net.now root mark marks.old found.old.items pairs
        → Reached (links_of net.now) root junction → IsWalk net.now root mark marks.new found.new.items count) }
    ensures grows { OnOk result (Grows mark marks.old marks.new found.old.items found.new.items) }
    ensures marked { OnOk result (has_mark marks.new mark junction ≡ true) }
{
    if marks[junction as usize] == mark {
        return Ok(pairs);
    }
    found.push(junction)?;
    marks[junction as usize] = mark;
    Ok(pairs.saturating_add(net.junction(junction).len() as u64))
}
