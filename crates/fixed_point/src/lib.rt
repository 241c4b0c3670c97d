//! Exact fixed-point arithmetic: numbers that are a mantissa over a power of two, the scales that
//! data are kept at, and decimal text. Nothing here takes memory.
//!
//! Read `specs/Numbers.antt` first: it says what each call answers.
#![tactic(auto)]

mod arithmetic;
mod fitting;
mod fraction;
mod num;
mod power;
mod quotient;
mod reading;
mod rounding;
mod scale;
mod writing;

pub use arithmetic::{add, compare, mul, neg, sub};
pub use fitting::{Mode, Overflow, exact, fit};
pub use num::{FRACTION_LIMIT, MAGNITUDE_LIMIT, Num};
pub use power::power_of_two;
pub use quotient::{Zero, div};
pub use reading::{
    DIGIT_LIMIT, NumFault, Numeral, frac_of, number_of, read_decimal, split_digits, split_number,
    value_after,
};
pub use rounding::READ_LIMIT;
pub use scale::{PLACES_LIMIT, Scale, WIDTH_LIMIT};
pub use writing::{DECIMAL_TEXT_LIMIT, write_decimal};
