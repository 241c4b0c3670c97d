//! Which places of a procedure are kept, from the last one to the first.
ghost use Rattle.std.specs.Prelude.{
  ◌≡◌,
  ◌∷◌,
  ◌<◌,
  ◌&&◌,
  ℕ,
  Bool,
  List,
  length,
  not,
  reverse,
  slice_index,
};
ghost use Rattle.code_language.specs.declared.limits.TheConstants.{INSTR_LIMIT};
ghost use Rattle.code_language.specs.Instrs.{Instr};
ghost use Rattle.code_shrink.specs.Kept.{AreCounts, Counts, totals};
ghost use Rattle.code_shrink.specs.Smaller.{count, is_idle};
ghost use Rattle.code_shrink.specs.Ways.{way_of};

use crate::places::Way;

/// How many places are kept past so many more; `counts` has how many are kept from each place on,
/// the next one last.
fn kept_past(counts: &[u32], over: usize) -> u32
    ensures { result ≡ slice_index (reverse counts.now) over }
{
    if over < counts.len() {
        counts[counts.len() - 1 - over]
    } else {
        0
    }
}

/// How many of so many next places are kept.
pub(crate) fn kept_within(counts: &[u32], over: u32) -> u32
    requires { AreCounts counts.now }
    ensures { (kept : List Bool) → Counts kept counts.now → result ≡ count over kept }
{
    kept_past(counts, 0) - kept_past(counts, over as usize)
}

/// Whether a place is kept: it is reached, and no skip over nothing that is kept.
pub(crate) fn is_kept(is_reached: bool, way: Way, counts: &[u32]) -> bool
    requires { AreCounts counts.now }
    ensures { (x : Instr) (kept : List Bool) → way_of x ≡ way → Counts kept counts.now
        → result ≡ (is_reached && not (is_idle x kept)) }
{
    if !is_reached {
        return false;
    }
    match way {
        Way::Skips(over) => kept_within(counts, over) != 0,
        Way::On | Way::Tests(_) | Way::Returns => true,
    }
}

/// How many places are kept from one on, where it is kept or not.
pub(crate) fn count_from(counts: &[u32], is_kept: bool) -> u32
    requires counts { AreCounts counts.now }
    requires short { length counts.now < INSTR_LIMIT }
    ensures { (kept : List Bool) → Counts kept counts.now
        → result ∷ reverse counts.now ≡ totals (is_kept ∷ kept) }
{
    let past = kept_past(counts, 0);
    if is_kept { past + 1 } else { past }
}
