//! Lines that aren't too long.
ghost use Rattle.std.specs.Prelude.{string_bytes, IfOk};
ghost use Rattle.c_lines.specs.Wrapped.{IsInLines};

use crate::breaking::print_broken;
use crate::cutting::print_cut;
use std::alloc::{AllocError, Global};

/// A text of C whose lines aren't too long. A line of more than 100 letters is broken at blanks,
/// and what has more than 508 letters without a blank is cut by a backslash. C reads the same.
///
/// The form of lines is this project's choice (`specs/Wrapped.antt`). Source of 509, which each
/// compiler of C takes: C90, 2.2.4.1; C99 has 4095 (5.2.4.1).
pub fn in_lines(alloc: Global, text: &str) -> Result<String, AllocError>
    ensures { IfOk result (λ made. IsInLines text.now (string_bytes made)) }
{
    let mut broken = String::new(alloc);
    print_broken(&mut broken, text)?;
    let mut made = String::new(alloc);
    print_cut(&mut made, &broken)?;
    Ok(made)
}
