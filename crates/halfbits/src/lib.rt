// The half-bits of a frame (document 01, "The wave"), and the encoder that makes them. Each bit of the store is a half-bit, from the top bit of the
// first byte down. A 1 pulls the line low.
#![tactic(auto)]

ghost use Rattle.std.specs.Prelude.{◌≡◌, true, ◌++◌, ◌-◌, ◌*◌, ◌/◌, ◌%◌, ◌≤◌, leb, length, drop};
ghost use Rattle.laws.specs.Tabulate.{tabulate};
ghost use Rattle.halfbits.specs.Constants.{public_constants};
ghost use Rattle.halfbits.specs.Frame.{bit_at};
ghost use Rattle.halfbits.specs.HalfBits.{half_bits_of};
ghost use Rattle.halfbits.specs.Encoding.{is_bit_count, frame_of, encode_error_number, encode_answer_number, encode_number, answer_of, written_to, encoded_of};
ghost use Rattle.halfbits.specs.Code.{half_bits, bytes_in};

// The fields are the Rust's. Memory is fixed, so the length stands beside the room for the half-bits.
#[derive(Clone, Copy)]
pub struct HalfBitBuffer {
    pub data: [u8; HalfBitBuffer::DATA_LEN],
    pub length: u8,
}

// Why the encoder refuses: no frame has this bit count, or the lent buffer has no room for the store.
#[derive(Clone, Copy, PartialEq, Eq)]
pub enum EncodeError {
    BadBitCount = 5,
    ShortBuffer = 6,
}

// Nobody calls this: its promise says what number each case has.
fn encode_error_number(error: EncodeError) -> u8
    ensures { result ≡ encode_error_number error }
{
    error as u8
}

impl HalfBitBuffer {
    pub const DATA_LEN: usize = 7;

    pub const MAX_DATA_HALF_BITS: u8 = 54;

    // The buffer that a start takes, for a frame of 8, 16 or 24 bits. The encoder ignores the bytes that the frame doesn't need.
    #[tactic(auto, using(crate::proofs::Encodes::as_many, crate::proofs::Encodes::none_behind), unfolding(crate::specs::Encoding::encoded_of, crate::specs::Encoding::answer_of, crate::specs::Encoding::written_to, crate::specs::Encoding::encode_answer_number, crate::specs::Encoding::encode_number, crate::specs::HalfBits::buffer_of, laws::specs::Pick::pick))]
    pub fn encode(bits: u8, first: u8, second: u8, third: u8) -> Result<HalfBitBuffer, EncodeError>
        ensures value { result ≡ encoded_of bits (frame_of bits first second third) }
        ensures answer_value { encode_answer_number result ≡ encode_number (is_bit_count bits) true }
    {
        let mut data = [0; HalfBitBuffer::DATA_LEN];
        let length = encode_into(bits, first, second, third, &mut data)?;
        Ok(HalfBitBuffer { data, length })
    }
}

// Writes the same half-bits to the first seven bytes of a lent buffer, and answers with their number.
#[tactic(auto, using(crate::proofs::Encodes::few, crate::proofs::Encodes::stored), unfolding(crate::specs::Encoding::answer_of, crate::specs::Encoding::encode_answer_number, crate::specs::Encoding::encode_number, crate::specs::Encoding::written_to, laws::specs::Pick::pick))]
pub fn encode_into(
    bits: u8,
    first: u8,
    second: u8,
    third: u8,
    out: &mut [u8],
) -> Result<u8, EncodeError>
    ensures value { result ≡ answer_of bits (length out.old) }
    ensures result_value { encode_answer_number result ≡ encode_number (is_bit_count bits) (leb 7 (length out.old)) }
    ensures out_after { out.new ≡ written_to bits (frame_of bits first second third) out.old }
{
    if !is_bit_count(bits) {
        return Err(EncodeError::BadBitCount);
    }
    if out.len() < HalfBitBuffer::DATA_LEN {
        return Err(EncodeError::ShortBuffer);
    }
    put_store(half_bits(bits, [first, second, third]), out);
    Ok(length_of(bits))
}

#[tactic(auto, unfolding(crate::specs::Encoding::is_bit_count, laws::specs::Pick::pick))]
fn is_bit_count(bits: u8) -> bool
    ensures { result ≡ is_bit_count bits }
{
    matches!(bits, 8 | 16 | 24)
}

// The start bit and each data bit have two half-bits. Four released ones follow.
fn length_of(bits: u8) -> u8
    requires { bits ≤ 24 }
    ensures { result ≡ half_bits_of bits }
{
    2 * (1 + bits) + 4
}

// The 56 half-bits of the store as one number, the first on top. A logical 1, such as the start bit, is 10, and a logical 0 is 01. The half-bits
// after the last bit are released, so they are 0.
fn half_bits(bits: u8, bytes: [u8; 3]) -> u64
    requires { bits ≤ 24 }
    ensures { result ≡ half_bits (tabulate bits (bit_at bytes)) }
{
    let mut all: u64 = 2;
    for at in 0..bits {
        let byte = bytes[at as usize / 8];
        let one = (byte >> (7 - at % 8)) % 2;
        all = all * 4 + 1 + u64::from(one);
    }
    all << (54 - 2 * bits)
}

// Writes the seven bytes of the store. Later bytes of the buffer stay. After `iter_mut().take(7)` a proof knows no byte, so the places are counted.
fn put_store(all: u64, out: &mut [u8])
    requires { 7 ≤ length out.old }
    ensures { out.new ≡ bytes_in all ++ drop 7 out.old }
{
    for at in 0..HalfBitBuffer::DATA_LEN {
        out[at] = ((all >> (48 - 8 * at)) % 256) as u8;
    }
}

// Nobody calls this: its promise says what each public constant is.
fn constants() -> PublicConstants
    ensures { result ≡ public_constants }
{
    PublicConstants {
        data_len: HalfBitBuffer::DATA_LEN,
        max_data_half_bits: HalfBitBuffer::MAX_DATA_HALF_BITS,
    }
}

#[derive(Drop)]
struct PublicConstants {
    data_len: usize,
    max_data_half_bits: u8,
}
