// Decimals: digits without a sign and without leading zeros.
ghost use Rattle.std.specs.Prelude.{◌&&◌, ◌≡◌, length};
ghost use Rattle.text.specs.Decimals.{all_digits, is_decimal, number_in, byte_in, decimal_of};
ghost use Rattle.text.specs.Writing.{place_past, buffer_with};
ghost use Rattle.text.specs.Code.{Put, digits, digit_in};

use crate::writing;

// The value of a digit. Hex has digits and a reader of its own, since range, base and definition differ.
#[tactic(auto, using(crate::proofs::DecimalLaws::decimal_digits))]
fn digit_value(byte: u8) -> Option<u8>
    ensures { result ≡ digit_in byte }
{
    match byte {
        b'0'..=b'9' => Some(byte - b'0'),
        _ => None,
    }
}

// Whether the field has a byte and no leading zero.
fn well_begun(field: &[u8]) -> bool
    ensures { is_decimal field.now ≡ (result && all_digits field.now) }
{
    match field {
        [] => false,
        [_] => true,
        [first, ..] => *first != b'0',
    }
}

// Reads a decimal up to `most`. The field may have any number of digits, and nothing overflows.
pub fn read_number(field: &[u8], most: u32) -> Option<u64>
    ensures { result ≡ number_in most field.now }
{
    if !well_begun(field) {
        return None;
    }
    let mut number: u64 = 0;
    for &byte in field {
        number = number * 10 + digit_value(byte)? as u64;
        if number > most as u64 {
            return None;
        }
    }
    Some(number)
}

// Reads a decimal up to `most` into a byte.
pub fn read_byte(field: &[u8], most: u8) -> Option<u8>
    ensures { result ≡ byte_in most field.now }
{
    let number = read_number(field, most as u32)?;
    Some(number as u8)
}

// How many decimal digits a number has. The loop takes off one digit a turn, as the definition does, so the proof needs no logarithm.
pub(crate) fn places(number: u32) -> usize
    ensures { result ≡ length (decimal_of number) }
{
    let mut count: usize = 1;
    let mut rest = number;
    while 10 <= rest {
        count += 1;
        rest /= 10;
    }
    count
}

// Writes the last `count` digits of a number. It writes by index, since after `iter_mut().rev()` a proof knows no byte.
#[tactic(auto, using(crate::proofs::WritingLaws::room_tests, crate::proofs::DecimalDigits::length_digits))]
fn put_digits(out: &mut [u8], at: usize, count: usize, number: u32) -> usize
    ensures { Put (digits count number) at out.old out.new result }
{
    if !writing::has_room(out.len(), at, count) {
        return at;
    }
    let mut rest = number;
    for i in (0..count).rev() {
        out[at + i] = b'0' + (rest % 10) as u8;
        rest /= 10;
    }
    at + count
}

pub fn put_decimal(out: &mut [u8], at: usize, number: u32) -> usize
    ensures value { result ≡ place_past (decimal_of number) at out.old }
    ensures out_after { out.new ≡ buffer_with (decimal_of number) at out.old }
{
    put_digits(out, at, places(number), number)
}
