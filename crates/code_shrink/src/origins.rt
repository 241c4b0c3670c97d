//! The numbers that the procedures of smaller code had.
ghost use Rattle.std.specs.Prelude.{◌≡◌, ◌≤◌, IfOk, length};
ghost use Rattle.code_language.specs.declared.limits.TheConstants.{PROC_LIMIT};
ghost use Rattle.code_shrink.specs.Origins.{kept_from};

use flow_base::Memory;
use std::alloc::Global;

/// The numbers of the reached procedures, in ascending order.
pub(crate) fn origins_of(alloc: Global, live: &[bool]) -> Result<Vec<u32>, Memory>
    requires few { length live.now ≤ PROC_LIMIT }
    ensures { IfOk result (λ origins. origins.items ≡ kept_from 0 live.now) }
{
    let mut origins = Vec::new(alloc);
    for (proc, is_live) in live.iter().enumerate() {
        if *is_live {
            origins.push(proc as u32)?;
        }
    }
    Ok(origins)
}
