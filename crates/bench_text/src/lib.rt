// Reads a line of the book (document 01, "The bench reader"), given without its LF. A line that breaks rules is refused by the first one that it
// breaks, in the order of specs/Rules.antt.
#![tactic(auto)]

ghost use Rattle.std.specs.Prelude.{◌≡◌};
ghost use Rattle.bench_text.specs.Constants.{public_constants};
ghost use Rattle.bench_text.specs.Rules.{refusal_number, book_line_answer_number, refusal_in};
ghost use Rattle.bench_text.specs.Line.{book_line_of};

use text::{decimals, fields, hex, words};
use window::DALI_RX_SAMPLE_BUF_LEN;

// A longer line is refused. The longest good line has 137 bytes.
pub const LINE_MAX: usize = 140;

// The largest silence in ticks, and the largest count.
const SILENCE_MAX: u8 = 255;

const COUNT_MAX: u8 = DALI_RX_SAMPLE_BUF_LEN as u8;

// Nobody calls this: its promise says what each public constant is.
fn constants() -> PublicConstants
    ensures { result ≡ public_constants }
{
    PublicConstants { line_max: LINE_MAX }
}

#[derive(Drop)]
struct PublicConstants {
    line_max: usize,
}

// Why a line is refused, with the number of each refusal.
#[derive(Clone, Copy)]
pub enum Refusal {
    TooLong = 1,
    NotFourFields = 2,
    BadNumber = 3,
    BadSamples = 4,
}

pub fn refusal_number(refusal: Refusal) -> u32
    ensures { result ≡ refusal_number refusal }
{
    refusal as u32
}

// What a good line says: the silence in ticks, the count, and the samples, which are 0 past the count. Memory is fixed, so the count stands beside
// the room for them.
#[derive(Clone, Copy)]
pub struct Capture {
    pub silence: u8,
    pub count: u8,
    pub samples: [u8; DALI_RX_SAMPLE_BUF_LEN],
}

// A refused line gives its refusal, and a good one its capture.
pub fn parse_line(text: &[u8]) -> Result<Capture, Refusal>
    ensures value { result ≡ book_line_of text.now }
    ensures answer_value { book_line_answer_number result ≡ refusal_in text.now }
{
    if LINE_MAX < text.len() {
        return Err(Refusal::TooLong);
    }
    if fields::count(text, b'\t') != 4 || !words::is(fields::field(text, b'\t', 0), b"C") {
        return Err(Refusal::NotFourFields);
    }
    // Each field is found only where it is read, so that a refused line is not looked through further.
    let silence_field = fields::field(text, b'\t', 1);
    let silence = decimals::read_byte(silence_field, SILENCE_MAX).ok_or(Refusal::BadNumber)?;
    let count_field = fields::field(text, b'\t', 2);
    let count = decimals::read_byte(count_field, COUNT_MAX).ok_or(Refusal::BadNumber)?;
    let samples_field = fields::field(text, b'\t', 3);
    let mut samples = [0u8; DALI_RX_SAMPLE_BUF_LEN];
    if !hex::read_hex(samples_field, &mut samples[..count as usize]) {
        return Err(Refusal::BadSamples);
    }
    Ok(Capture {
        silence,
        count,
        samples,
    })
}
