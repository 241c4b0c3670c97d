//! Tables of numbers.
ghost use Rattle.std.specs.Prelude.{◌≡◌, ◌<◌, ◌≤◌, ℕ, suc, length, slice_index_or, IfOk};
ghost use Rattle.flow_base.specs.declared.chart_limits.TheConstants.{JUNCTION_LIMIT};
ghost use Rattle.flow_base.specs.Lists.{items_of};
ghost use Rattle.chart_code.specs.Orders.{sum_to};
ghost use Rattle.list_compile.specs.declared.number_limits.TheConstants as limits;
ghost use Rattle.list_compile.specs.Tables.{IsTable, AreLow};

use flow_base::{List, Memory};
use std::alloc::Global;

/// The number at a place of a table.
pub(crate) fn entry(table: &List<u32>, place: u32) -> u32
    requires { place < length (items_of table.now) }
    ensures { result ≡ slice_index_or (items_of table.now) place 0 }
{
    table.items()[place as usize]
}

/// For each place, and for the end, the sum of the numbers before it.
pub(crate) fn sums_before(alloc: Global, counts: &List<u32>) -> Result<List<u32>, Memory>
    requires few { length (items_of counts.now) ≤ JUNCTION_LIMIT }
    requires low { AreLow limits.SIZE_LIMIT (items_of counts.now) }
    ensures { IfOk result (λ sums. (f : ℕ → ℕ) →
        IsTable f (length (items_of counts.now)) limits.SIZE_LIMIT (items_of counts.now) →
        IsTable (sum_to f) (suc (length (items_of counts.now))) limits.SUM_LIMIT (items_of sums)) }
{
    let mut sums = List::of(Vec::new(alloc));
    let mut sum = 0;
    for count in counts.items() {
        sums.push(sum)?;
        sum += *count;
    }
    sums.push(sum)?;
    Ok(sums)
}
