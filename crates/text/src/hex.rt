// Lower-case hex: two digits for a byte, and numbers of a fixed width.
ghost use Rattle.std.specs.Prelude.{true, ◌≡◌, ◌*◌, ◌<◌, length};
ghost use Rattle.text.specs.Hex.{hex_digit, all_hex, bytes_of, is_hex, filled_by, hexes_of, hex_number_in, hex_digits_of};
ghost use Rattle.text.specs.Writing.{place_past, buffer_with};
ghost use Rattle.text.specs.Code.{hex_digit_in};

use crate::writing;

// What stands for a byte that is no digit in the two loops over the digits of a field. A branch on an Option at each byte takes more
// time (docs/LOOK-BACK.md).
const NO_DIGIT: u8 = 16;

// The value of a hex digit. Decimals have digits and a reader of their own, since range, base and definition differ.
#[tactic(auto, using(crate::proofs::HexLaws::hex_digits))]
fn digit_value(byte: u8) -> Option<u8>
    ensures { result ≡ hex_digit_in byte }
{
    match byte {
        b'0'..=b'9' => Some(byte - b'0'),
        b'a'..=b'f' => Some(byte - b'a' + 10),
        _ => None,
    }
}

fn all_hex(field: &[u8]) -> bool
    ensures { result ≡ all_hex field.now }
{
    field
        .iter()
        .all(|byte| digit_value(*byte).unwrap_or(NO_DIGIT) < NO_DIGIT)
}

// Whether the field is two hex digits for each of `count` bytes, and nothing else.
fn is_hex(field: &[u8], count: usize) -> bool
    ensures { result ≡ is_hex count field.now }
{
    if field.len() % 2 != 0 || field.len() / 2 != count {
        return false;
    }
    all_hex(field)
}

// Fills the buffer from a field that has two hex digits for each of its bytes. This file writes by index: after an
// adapter of `iter_mut`, as `enumerate`, a proof knows no byte.
fn fill(field: &[u8], bytes: &mut [u8])
    requires { (length field.now ≡ 2 * length bytes.old) × (all_hex field.now ≡ true) }
    ensures { bytes.new ≡ bytes_of field.now }
{
    for i in 0..bytes.len() {
        let high = digit_value(field[2 * i]).unwrap_or(NO_DIGIT);
        let low = digit_value(field[2 * i + 1]).unwrap_or(NO_DIGIT);
        bytes[i] = high * 16 + low;
    }
}

// Fills the buffer and answers true, if the field is two hex digits for each of its bytes. If not, the buffer stays as it was. A bool says it all,
// since what is read is in the buffer.
#[tactic(auto, using(crate::proofs::HexLaws::hex_says, crate::proofs::HexLaws::not_filled))]
pub fn read_hex(field: &[u8], bytes: &mut [u8]) -> bool
    ensures value { result ≡ is_hex (length bytes.old) field.now }
    ensures bytes_after { bytes.new ≡ filled_by field.now bytes.old }
{
    if !is_hex(field, bytes.len()) {
        return false;
    }
    fill(field, bytes);
    true
}

// Reads a number of exactly `width` hex digits. No width above sixteen is read.
pub fn read_hex_number(field: &[u8], width: usize) -> Option<u64>
    ensures { result ≡ hex_number_in width field.now }
{
    if 16 < width || field.len() != width {
        return None;
    }
    let mut number: u64 = 0;
    for &byte in field {
        number = number * 16 + digit_value(byte)? as u64;
    }
    Some(number)
}

fn hex_digit(value: u8) -> u8
    requires { value < 16 }
    ensures { result ≡ hex_digit value }
{
    if value < 10 {
        b'0' + value
    } else {
        b'a' + (value - 10)
    }
}

// Writes each byte as two digits.
#[tactic(auto, using(crate::proofs::WritingLaws::room_tests, crate::proofs::HexLaws::length_hexes))]
pub fn put_hex(out: &mut [u8], at: usize, bytes: &[u8]) -> usize
    ensures value { result ≡ place_past (hexes_of bytes.now) at out.old }
    ensures out_after { out.new ≡ buffer_with (hexes_of bytes.now) at out.old }
{
    if !writing::has_room(out.len(), at, 2 * bytes.len()) {
        return at;
    }
    let mut end = at;
    for &byte in bytes {
        out[end] = hex_digit(byte / 16);
        out[end + 1] = hex_digit(byte % 16);
        end += 2;
    }
    end
}

// Writes the last `width` hex digits of a number. Decimals have a loop of their own: one for both would have to be told base, digits and definition.
#[tactic(auto, using(crate::proofs::WritingLaws::room_tests, crate::proofs::HexLaws::length_hex_digits))]
pub fn put_hex_digits(out: &mut [u8], at: usize, number: u64, width: usize) -> usize
    ensures value { result ≡ place_past (hex_digits_of width number) at out.old }
    ensures out_after { out.new ≡ buffer_with (hex_digits_of width number) at out.old }
{
    if !writing::has_room(out.len(), at, width) {
        return at;
    }
    let mut rest = number;
    for i in (0..width).rev() {
        out[at + i] = hex_digit((rest % 16) as u8);
        rest /= 16;
    }
    at + width
}
