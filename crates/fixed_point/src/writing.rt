//! Decimal text, written.
ghost use Rattle.std.specs.Prelude.{◌≡◌, ◌≤◌, ◌<◌, ◌+◌, ◌^◌, ◌++◌, ◌∷◌, [], take, length, decimal, unsigned_abs};
ghost use Rattle.fixed_point.specs.Text as spec;
ghost use Rattle.fixed_point.specs.Told as told;
ghost use Rattle.fixed_point.specs.declared.num.TheConstants.{MAGNITUDE_LIMIT, FRACTION_LIMIT};
ghost use Rattle.fixed_point.specs.declared.writing.TheConstants.{DECIMAL_TEXT_LIMIT};

use crate::power::unsigned_power;

/// The most bytes of the decimal text of a number.
pub const DECIMAL_TEXT_LIMIT: usize = 128;

/// Writes a byte after the first `at` bytes of the buffer, and answers how many bytes there are
/// now.
fn put(buf: &mut [u8], at: usize, byte: u8) -> usize
    requires { at < length buf.old }
    ensures text { take result buf.new ≡ take at buf.old ++ byte ∷ [] }
    ensures end { result ≡ at + 1 }
{
    buf[at] = byte;
    at + 1
}

/// Puts a minus sign at the front where the number is negative.
fn put_sign(buf: &mut [u8], mantissa: i128) -> usize
    requires { 1 ≤ length buf.old }
    ensures text { take result buf.new ≡ spec.sign_of mantissa }
    ensures end { result ≡ length (spec.sign_of mantissa) }
{
    if mantissa < 0 { put(buf, 0, b'-') } else { 0 }
}

/// Writes the digits of a whole number after the first `at` bytes of the buffer.
fn put_whole(buf: &mut [u8], at: usize, number: u128) -> usize
    requires { at + length (decimal number) ≤ length buf.old }
    ensures text { take result buf.new ≡ take at buf.old ++ decimal number }
    ensures end { result ≡ at + length (decimal number) }
{
    if number < 10 {
        return put(buf, at, b'0' + number as u8);
    }
    let front_end = put_whole(buf, at, number / 10);
    put(buf, front_end, b'0' + (number % 10) as u8)
}

/// Writes the digits after the point of `number / 2^frac` after the first `at` bytes of the buffer.
fn put_behind(buf: &mut [u8], at: usize, number: u128, frac: u32) -> usize
    requires frac { frac ≤ FRACTION_LIMIT }
    requires room { at + FRACTION_LIMIT ≤ length buf.old }
    ensures text { take result buf.new ≡ take at buf.old ++ spec.fraction_digits number frac }
    ensures end { result ≡ at + length (spec.fraction_digits number frac) }
{
    let one = unsigned_power(frac);
    let mut rest = number % one;
    let mut end = at;
    while rest != 0 {
        rest *= 10;
        end = put(buf, end, b'0' + (rest / one) as u8);
        rest %= one;
    }
    end
}

/// Puts the shortest exact decimal text of `mantissa / 2^frac` at the front of the buffer, and
/// answers its length.
#[tactic(auto, unfolding(crate::specs::Text::decimal_text))]
pub fn write_decimal(mantissa: i128, frac: u32, buf: &mut [u8]) -> usize
    requires size { unsigned_abs mantissa ≤ MAGNITUDE_LIMIT }
    requires frac { frac ≤ FRACTION_LIMIT }
    requires room { DECIMAL_TEXT_LIMIT ≤ length buf.old }
    ensures text { take result buf.new ≡ spec.decimal_text mantissa frac }
    ensures end { result ≡ length (spec.decimal_text mantissa frac) }
    ensures within { result ≤ DECIMAL_TEXT_LIMIT }

    // The text denotes the value as texts are read, and no shorter text does.
    ensures exact { told.TellsExactly mantissa frac (spec.decimal_text mantissa frac) }
    ensures shortest { told.IsShortest mantissa frac (spec.decimal_text mantissa frac) }
{
    let number = mantissa.unsigned_abs();
    let one = unsigned_power(frac);
    let sign_end = put_sign(buf, mantissa);
    let whole_end = put_whole(buf, sign_end, number / one);
    if number % one == 0 {
        return whole_end;
    }
    let point_end = put(buf, whole_end, b'.');
    put_behind(buf, point_end, number, frac)
}
