// Writes the answer lines of document 01, "The bench reader", into a lent buffer from a place on. Each function answers the place past its line. If
// there is no room for the longest line of its kind, it writes nothing.
#![tactic(auto)]

ghost use Rattle.std.specs.Prelude.{◌≡◌, ◌+◌, ◌≤◌};
ghost use Rattle.text.specs.Writing.{place_after, buffer_after};
ghost use Rattle.bench_answers.specs.Constants.{public_constants};
ghost use Rattle.bench_answers.specs.Answer.{row_max, bad_max, end_max, row_text, bad_text, end_text};
ghost use Rattle.bench_answers.specs.Code.{Wrote, field_text, frame_text};

use bench_reading::Reading;
use bench_text::{Capture, Refusal, refusal_number};
use event::PHY_TICK_US;
use rx_decode::SniffedFrame;
use text::{decimals, hex, signed, writing};

// The bytes of the longest row, BAD line and END line. A number of 32 bits may have ten digits.
pub const ROW_MAX: usize = 45;

pub const BAD_MAX: usize = 17;

pub const END_MAX: usize = 37;

// Nobody calls this: its promise says what each public constant is.
fn constants() -> PublicConstants
    ensures { result ≡ public_constants }
{
    PublicConstants {
        row_max: ROW_MAX,
        bad_max: BAD_MAX,
        end_max: END_MAX,
    }
}

#[derive(Drop)]
struct PublicConstants {
    row_max: usize,
    bad_max: usize,
    end_max: usize,
}

// What the END line tells: how many lines there were, how many of them were decoded, and how many refused.
#[derive(Clone, Copy)]
pub struct Counts {
    pub lines: u32,
    pub decoded: u32,
    pub refused: u32,
}

// Writes the answer to a good line.
#[tactic(auto, using(text::proofs::WritingLaws::room_tests))]
pub fn put_row(out: &mut [u8], at: usize, number: u32, capture: Capture, reading: Reading) -> usize
    ensures value { result ≡ place_after row_max (row_text number capture reading) at out.old }
    ensures out_after { out.new ≡ buffer_after row_max (row_text number capture reading) at out.old }
    ensures upper_bound { result ≤ at + row_max }
{
    if !writing::has_room(out.len(), at, ROW_MAX) {
        return at;
    }
    let decode = reading.decode;
    let at = put_field(out, at, number, b'\t');
    let at = put_frame(out, at, decode.frame);
    let at = writing::put_byte(out, at, b'\t');
    let at = signed::put_signed(out, at, decode.phase_ticks);
    let at = writing::put_byte(out, at, b'\t');
    let at = put_field(out, at, decode.score as u32, b'\t');
    let at = put_field(out, at, reading.low_run as u32, b'\t');
    put_field(out, at, capture.silence as u32 * PHY_TICK_US, b'\n')
}

// Writes the answer to a refused line.
#[tactic(auto, using(text::proofs::WritingLaws::room_tests))]
pub fn put_bad(out: &mut [u8], at: usize, number: u32, refusal: Refusal) -> usize
    ensures value { result ≡ place_after bad_max (bad_text number refusal) at out.old }
    ensures out_after { out.new ≡ buffer_after bad_max (bad_text number refusal) at out.old }
    ensures upper_bound { result ≤ at + bad_max }
{
    if !writing::has_room(out.len(), at, BAD_MAX) {
        return at;
    }
    let at = put_field(out, at, number, b'\t');
    let at = writing::put_text(out, at, b"BAD\t");
    put_field(out, at, refusal_number(refusal), b'\n')
}

// Writes the last line.
#[tactic(auto, using(text::proofs::WritingLaws::room_tests))]
pub fn put_end(out: &mut [u8], at: usize, counts: Counts) -> usize
    ensures value { result ≡ place_after end_max (end_text counts) at out.old }
    ensures out_after { out.new ≡ buffer_after end_max (end_text counts) at out.old }
    ensures upper_bound { result ≤ at + end_max }
{
    if !writing::has_room(out.len(), at, END_MAX) {
        return at;
    }
    let at = writing::put_text(out, at, b"END\t");
    let at = put_field(out, at, counts.lines, b'\t');
    let at = put_field(out, at, counts.decoded, b'\t');
    put_field(out, at, counts.refused, b'\n')
}

// Writes a number and the mark behind it.
fn put_field(out: &mut [u8], at: usize, number: u32, mark: u8) -> usize
    ensures { Wrote (field_text number mark) at out.old out.new result }
{
    let at = decimals::put_decimal(out, at, number);
    writing::put_byte(out, at, mark)
}

// Writes kind and data, with a tab between them.
fn put_frame(out: &mut [u8], at: usize, frame: SniffedFrame) -> usize
    ensures { Wrote (frame_text frame) at out.old out.new result }
{
    match frame {
        SniffedFrame::Forward16(bits) => {
            let at = writing::put_text(out, at, b"F16\t");
            hex::put_hex(out, at, &bits.to_be_bytes())
        }
        SniffedFrame::Backward8(byte) => {
            let at = writing::put_text(out, at, b"B8\t");
            hex::put_hex(out, at, &[byte])
        }
        SniffedFrame::Forward24(first, second, third) => {
            let at = writing::put_text(out, at, b"F24\t");
            hex::put_hex(out, at, &[first, second, third])
        }
        SniffedFrame::UnsupportedLength(bits) => {
            let at = writing::put_text(out, at, b"LEN\t");
            decimals::put_decimal(out, at, bits as u32)
        }
        SniffedFrame::DecodeFailed => writing::put_text(out, at, b"FAIL\t-"),
    }
}
