// Signed numbers from -128 to 127. There is no `-0`.
ghost use Rattle.std.specs.Prelude.{◌≡◌, ◌≤◌, pos, neg_ℤ, nat_abs};
ghost use Rattle.text.specs.Signed.{below_zero, signed_in, signed_of};
ghost use Rattle.text.specs.Writing.{place_past, buffer_with};
ghost use Rattle.text.specs.Code.{minus_and};

use crate::{decimals, writing};

pub fn read_signed(field: &[u8]) -> Option<i8>
    ensures { result ≡ signed_in field.now }
{
    match field.strip_prefix(b"-") {
        Some(digits) => negative(digits),
        None => Some(decimals::read_byte(field, 127)? as i8),
    }
}

// Reads the digits behind a minus.
fn negative(digits: &[u8]) -> Option<i8>
    ensures { result ≡ below_zero digits.now }
{
    let number = decimals::read_byte(digits, 128)?;
    if number == 0 {
        return None;
    }
    Some(minus(number))
}

// The negative of 128 fits a byte and 128 does not, so the sign is set in a wider number.
fn minus(number: u8) -> i8
    requires { number ≤ 128 }
    ensures { result ≡ neg_ℤ (pos number) }
{
    -(number as i16) as i8
}

#[tactic(auto, using(crate::proofs::SignedLaws::with_minus, crate::proofs::SignedLaws::without_minus))]
pub fn put_signed(out: &mut [u8], at: usize, number: i8) -> usize
    ensures value { result ≡ place_past (signed_of number) at out.old }
    ensures out_after { out.new ≡ buffer_with (signed_of number) at out.old }
{
    let digits = number.unsigned_abs() as u32;
    if number < 0 {
        return put_below_zero(out, at, digits);
    }
    decimals::put_decimal(out, at, digits)
}

// Writes a minus and then the digits, if there is room for both.
#[tactic(auto, using(crate::proofs::WritingLaws::room_tests))]
fn put_below_zero(out: &mut [u8], at: usize, digits: u32) -> usize
    ensures value { result ≡ place_past (minus_and digits) at out.old }
    ensures out_after { out.new ≡ buffer_with (minus_and digits) at out.old }
{
    if !writing::has_room(out.len(), at, 1 + decimals::places(digits)) {
        return at;
    }
    let next = writing::put_byte(out, at, b'-');
    decimals::put_decimal(out, next, digits)
}
