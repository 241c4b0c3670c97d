//! The new numbers of procedures.
ghost use Rattle.std.specs.Prelude.{◌≡◌, ◌+◌, ◌<◌, ◌≤◌, ℕ, IfOk, length};
ghost use Rattle.code_language.specs.declared.limits.TheConstants.{PROC_LIMIT};
ghost use Rattle.code_shrink.specs.Numbers.{number_by};
ghost use Rattle.code_shrink.specs.Whole.{number_in};

use flow_base::Memory;
use std::alloc::Global;

/// For each procedure how many reached ones come before it, and last how many are reached in all.
pub(crate) fn numbers_of(alloc: Global, live: &[bool]) -> Result<Vec<u32>, Memory>
    requires few { length live.now ≤ PROC_LIMIT }
    ensures size { IfOk result (λ numbers. length numbers.items ≡ length live.now + 1) }
    ensures numbers { IfOk result (λ numbers. (p : ℕ) →
        number_by numbers.items p ≡ number_in live.now p) }
{
    let mut numbers = Vec::new(alloc);
    let mut number: u32 = 0;
    for is_live in live {
        numbers.push(number)?;
        if *is_live {
            number += 1;
        }
    }
    numbers.push(number)?;
    Ok(numbers)
}

/// The new number of a procedure. One past the last procedure, which no code names, gets the last
/// number.
///
/// Source: this project's choice.
pub fn number_at(numbers: &[u32], proc: u32) -> u32
    requires { 0 < length numbers.now }
    ensures { result ≡ number_by numbers.now proc }
{
    numbers[(proc as usize).min(numbers.len() - 1)]
}
