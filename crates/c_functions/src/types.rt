//! The type of words, and those of the fields of data.
ghost use Rattle.std.specs.Prelude.{◌≡◌};
ghost use Rattle.c_functions.specs.Claims.{field_type, least_width};

use actions::Sort;
use c_subset::{CType, Width};

/// `uint32_t`, the type of counters, parameters and results.
pub const WORD: CType = CType::Unsigned(Width::W32);

/// The type of the field of a datum.
pub fn field_type(sort: Sort) -> CType
    ensures { result ≡ field_type sort }
{
    match sort {
        Sort::Flag => CType::Truth,
        Sort::Number(scale) => {
            let width = least_width(u32::from(scale.width));
            if scale.signed {
                CType::Signed(width)
            } else {
                CType::Unsigned(width)
            }
        }
    }
}

/// The least width that holds so many bits.
fn least_width(bits: u32) -> Width
    ensures { result ≡ least_width bits }
{
    if bits <= 8 {
        Width::W8
    } else if bits <= 16 {
        Width::W16
    } else if bits <= 32 {
        Width::W32
    } else {
        Width::W64
    }
}
