// The window over a capture's samples, and what one phase reads in it. From source document 001 (manchester.rs).
#![tactic(auto)]

ghost use Rattle.std.specs.Prelude.{◌≡◌, min, max, ◌+◌, ◌-◌, ◌^◌, ◌≤◌, ◌<◌, ltb};
ghost use Rattle.std.proofs.Math.IntN.{sub_ℕ};
ghost use Rattle.laws.specs.Pick.{pick};
ghost use Rattle.window.specs.Window.{window_of, empty_window, level_before, peek_at};
ghost use Rattle.window.specs.Phase.{failed, decode_of, phase_of, bits_of, stride_of};
ghost use Rattle.window.specs.Constants.{public_constants};
ghost use Rattle.window.specs.Code.{byte_at, ten_ticks, peeks_of, stop_of, around_of, summary_of, stored_of, pushed_of, placed_of};

// Source document 000 (fsm.rs) has this constant. It is here since the window needs it.
pub const DALI_RX_SAMPLE_BUF_LEN: usize = 64;

pub const DECODED_BYTES: usize = 8;

// Nobody calls this: its promise says what each public constant is.
fn constants() -> PublicConstants
    ensures { result ≡ public_constants }
{
    PublicConstants {
        dali_rx_sample_buf_len: DALI_RX_SAMPLE_BUF_LEN,
        decoded_bytes: DECODED_BYTES,
    }
}

#[derive(Drop)]
struct PublicConstants {
    dali_rx_sample_buf_len: usize,
    decoded_bytes: usize,
}

const WINDOW_LEN: usize = DALI_RX_SAMPLE_BUF_LEN + 2;

const WINDOW_BITS_PER_SAMPLE: u16 = 8;

const PEEK_IDLE: u8 = 0xFF;

const PEEK_HELD: u8 = 0x00;

// The bits that the data bytes have room for.
const STORED_BITS: u8 = (DECODED_BYTES * 8) as u8;

// The sample bits of a full window.
const MOST_SAMPLE_BITS: u16 = DALI_RX_SAMPLE_BUF_LEN as u16 * WINDOW_BITS_PER_SAMPLE;

// No peek begins more than 128 ticks before the start. The code counts positions from there, so that none is negative.
const EARLIEST: u16 = 128;

// The Rust's own enum.
#[derive(Drop)]
enum PeekStop {
    None,
    Idle,
    Held,
}

// The three peeks of a bit: at its position, a tick earlier and a tick later.
#[derive(Drop)]
struct BitPeeks {
    centre: u8,
    early: u8,
    late: u8,
}

#[derive(Drop)]
struct PeekAround {
    weightmax: u8,
    pmax: u16,
    stop: PeekStop,
}

// What a phase has read: how many bits, the start bit among them, their score, and the stored bits as one number.
#[derive(Drop)]
struct Reading {
    bit_len: u8,
    score: u16,
    bits: u64,
}

impl Reading {
    const EMPTY: Reading = Reading {
        bit_len: 0,
        score: 0,
        bits: 0,
    };
}

// The eight data bytes are one number, the first byte on top.
#[derive(Clone, Copy)]
pub struct PhaseDecode {
    pub bit_len: u8,
    pub phase_ticks: i8,
    pub score: u16,
    pub data: u64,
}

impl PhaseDecode {
    #[tactic(auto, unfolding(crate::specs::Phase::decode_of))]
    fn failed(phase_ticks: i8) -> PhaseDecode
        ensures { result ≡ decode_of phase_ticks failed }
    {
        PhaseDecode {
            bit_len: 0,
            phase_ticks,
            score: 0,
            data: 0,
        }
    }
}

// The fields are the Rust's. Memory is fixed, so the number of samples and pad stands beside the room for them.
#[derive(Clone, Copy)]
pub struct SampleWindow {
    bytes: [u8; WINDOW_LEN],
    len: u16,
    bits: u16,
}

impl SampleWindow {
    pub const EMPTY: SampleWindow = SampleWindow {
        bytes: [0; WINDOW_LEN],
        len: 0,
        bits: 0,
    };

    // Nobody calls this: its promise says what the constant is.
    #[tactic(auto, unfolding(crate::specs::Window::empty_window))]
    fn empty() -> SampleWindow
        ensures { result ≡ empty_window }
    {
        SampleWindow::EMPTY
    }

    #[tactic(auto, using(crate::proofs::Captured::captured))]
    pub fn of_capture(samples: &[u8; DALI_RX_SAMPLE_BUF_LEN], sample_count: u16) -> SampleWindow
        ensures { result ≡ window_of samples.now sample_count }
    {
        let n = samples_kept(sample_count);
        let mut bytes = [0; WINDOW_LEN];
        bytes[..n].copy_from_slice(&samples[..n]);
        bytes[n] = PEEK_IDLE;
        SampleWindow {
            bytes,
            len: (n + 1) as u16,
            bits: n as u16 * WINDOW_BITS_PER_SAMPLE,
        }
    }

    // Byte number `pos` of the window. Past the pad there is none.
    #[tactic(auto, unfolding(crate::specs::Code::byte_at, laws::specs::Pick::pick))]
    fn byte(&self, pos: u16) -> Option<u8>
        ensures { result ≡ byte_at self.now pos }
    {
        if self.len <= pos {
            return None;
        }
        self.bytes.get(pos as usize).copied()
    }

    // One tick of a peek that begins before the start.
    #[tactic(auto, using(crate::proofs::Peeks::levels), unfolding(crate::specs::Window::level_before, laws::specs::Pick::pick))]
    fn sample_bit(&self, at: u16) -> u8
        ensures { result ≡ level_before self.now (sub_ℕ at 128) }
    {
        if at < EARLIEST {
            return self.byte(0).unwrap_or(PEEK_IDLE) / 128;
        }
        let bitpos = at - EARLIEST;
        if self.bits <= bitpos {
            return 1;
        }
        (self.byte(bitpos / 8).unwrap_or(0) >> (7 - bitpos % 8)) % 2
    }

    fn peek_before_start(&self, at: u16) -> u8
        requires { at < 128 }
        ensures { result ≡ peek_at self.now (sub_ℕ at 128) }
    {
        let mut sample: u8 = 0;
        for offset in 0..8 {
            sample = sample * 2 + self.sample_bit(at + offset);
        }
        sample
    }

    // Eight ticks from a position on, the first on top. The bound on it keeps the sums within 16 bits, here and in the next three functions.
    #[tactic(auto, using(crate::proofs::Peeks::peek_past, crate::proofs::Peeks::peek_within))]
    fn peek8(&self, at: u16) -> u8
        requires { at ≤ 1000 }
        ensures { result ≡ peek_at self.now (sub_ℕ at 128) }
    {
        if at < EARLIEST {
            return self.peek_before_start(at);
        }
        let shifted = at - EARLIEST;
        let pos = shifted / 8;
        if self.len <= pos {
            return PEEK_IDLE;
        }
        let first = self.byte(pos).unwrap_or(0) as u16;
        let next = self.byte(pos + 1).unwrap_or(0) as u16;
        (((first * 256 + next) >> (8 - shifted % 8)) % 256) as u8
    }

    // Ten ticks from a position on, the first on top.
    #[tactic(auto, using(crate::proofs::Peeks::ten))]
    fn ten_ticks(&self, bitpos: u16) -> u16
        requires { bitpos ≤ 1000 }
        ensures { result ≡ ten_ticks self.now bitpos }
    {
        let pos = bitpos / 8;
        let first = self.byte(pos).unwrap_or(0) as u32;
        let second = self.byte(pos + 1).unwrap_or(0) as u32;
        let third = self.byte(pos + 2).unwrap_or(0) as u32;
        let ticks = first * 65_536 + second * 256 + third;
        ((ticks >> (14 - bitpos % 8)) % 1024) as u16
    }

    // If all three peeks begin within the capture or its pad, they lie within the same ten ticks, and one read of these is enough.
    #[tactic(auto, using(crate::proofs::Peeks::together), unfolding(crate::specs::Code::peeks_of))]
    fn peeks_around(&self, at: u16) -> BitPeeks
        requires { (1 ≤ at) × (at ≤ 900) }
        ensures { result ≡ peeks_of self.now at }
    {
        if EARLIEST < at && (at + 1 - EARLIEST) / 8 < self.len {
            let ticks = self.ten_ticks(at - 1 - EARLIEST);
            return BitPeeks {
                centre: (ticks / 2 % 256) as u8,
                early: (ticks / 4 % 256) as u8,
                late: (ticks % 256) as u8,
            };
        }
        BitPeeks {
            centre: self.peek8(at),
            early: self.peek8(at - 1),
            late: self.peek8(at + 1),
        }
    }

    // A bit's weight, the stride to the next bit, and the stop. The stop depends on the late peek and on no other.
    #[tactic(auto, using(crate::proofs::Turns::around))]
    fn weighted_peek_around(&self, bitpos: u16, bias: u8) -> PeekAround
        requires { (1 ≤ bitpos) × (bitpos ≤ 600) }
        ensures { result ≡ around_of self.now (sub_ℕ bias 128) bitpos }
    {
        let peeks = self.peeks_around(bitpos + bias as u16);
        let centre = weight::sample_weight(peeks.centre);
        let early = weight::sample_weight(peeks.early);
        let late = weight::sample_weight(peeks.late);
        PeekAround {
            weightmax: centre.max(early).max(late),
            pmax: stride(centre, early, late),
            stop: stop_of(peeks.late),
        }
    }

    // None if the phase fails.
    #[tactic(auto, using(crate::proofs::Turns::turns))]
    fn read_phase(&self, max_out_bits: u8, bias: u8) -> Option<Reading>
        ensures { result ≡ summary_of (bits_of self.now max_out_bits (sub_ℕ bias 128)) }
    {
        // No window that can be made has more sample bits than a full one, so this cuts none off.
        let bits = self.bits.min(MOST_SAMPLE_BITS);
        let mut read = Reading::EMPTY;
        let mut bitpos: u16 = 1;
        while bitpos + 1 < bits {
            if max_out_bits < read.bit_len {
                break;
            }
            let around = self.weighted_peek_around(bitpos, bias);
            match around.stop {
                PeekStop::Idle => break,
                PeekStop::Held => return None,
                PeekStop::None => {}
            }
            read.score += around.weightmax as u16;
            read.bits = push_decoded_bit(read.bits, read.bit_len, around.weightmax);
            read.bit_len += 1;
            bitpos += around.pmax;
        }
        Some(read)
    }

    pub fn decode_phase(self, max_out_bits: u8, phase_ticks: i8) -> PhaseDecode
        ensures { result ≡ phase_of self max_out_bits phase_ticks }
    {
        let Some(read) = self.read_phase(max_out_bits, from_earliest(phase_ticks)) else {
            return PhaseDecode::failed(phase_ticks);
        };
        PhaseDecode {
            bit_len: reported(read.bit_len),
            phase_ticks,
            score: read.score,
            data: placed(read.bits, stored(read.bit_len)),
        }
    }
}

// A capture has as many samples as it counts, but never more than 64.
pub fn samples_kept(sample_count: u16) -> usize
    ensures { result ≡ min sample_count 64 }
{
    (sample_count as usize).min(DALI_RX_SAMPLE_BUF_LEN)
}

// The phase with `EARLIEST` added, so that it is never negative.
fn from_earliest(phase_ticks: i8) -> u8
    ensures { sub_ℕ result 128 ≡ phase_ticks }
{
    (phase_ticks as i16 + 128) as u8
}

// The stride to the next bit. On a tie the centre wins over the early peek, and both win over the late one.
#[tactic(auto, unfolding(crate::specs::Phase::stride_of, laws::specs::Pick::pick))]
fn stride(centre: u8, early: u8, late: u8) -> u16
    ensures { result ≡ stride_of centre early late }
{
    if centre.max(early) < late {
        return 9;
    }
    if centre < early { 7 } else { 8 }
}

// The Rust's match. It is a function by itself, since a definition names it.
#[tactic(auto, unfolding(crate::specs::Code::stop_of, laws::specs::Pick::pick))]
fn stop_of(sample: u8) -> PeekStop
    ensures { result ≡ stop_of sample }
{
    match sample {
        PEEK_IDLE => PeekStop::Idle,
        PEEK_HELD => PeekStop::Held,
        _ => PeekStop::None,
    }
}

// The stored bits with one more. Neither the start bit nor a data bit past the 64th is stored.
#[tactic(auto, using(crate::proofs::Placing::room), unfolding(crate::specs::Code::pushed_of, laws::specs::Pick::pick))]
fn push_decoded_bit(bits: u64, bit_len: u8, weightmax: u8) -> u64
    requires { bits < 2 ^ stored_of bit_len }
    ensures { result ≡ pushed_of bits bit_len weightmax }
{
    if bit_len == 0 || STORED_BITS < bit_len {
        return bits;
    }
    bits * 2 + (weightmax % 2) as u64
}

// The length that the phase reports. It leaves the start bit out, unless that is the only bit.
#[tactic(auto, unfolding(laws::specs::Pick::pick))]
fn reported(bit_len: u8) -> u8
    ensures { result ≡ pick (ltb 1 bit_len) (bit_len - 1) bit_len }
{
    if 1 < bit_len { bit_len - 1 } else { bit_len }
}

// How many of the bits read are stored.
fn stored(bit_len: u8) -> u8
    ensures { result ≡ stored_of bit_len }
{
    bit_len.saturating_sub(1).min(STORED_BITS)
}

// The n stored bits, eight to a byte, the first byte on top. If the last byte is part-filled, its bits are the low ones.
#[tactic(auto, using(crate::proofs::Placing::one_shifted, crate::proofs::Placing::sum_fits, crate::proofs::Placing::placed_fits, crate::proofs::Placing::placed_none))]
fn placed(bits: u64, n: u8) -> u64
    requires { (bits < 2 ^ n) × (n ≤ 64) }
    ensures { result ≡ placed_of bits n }
{
    if n == 0 {
        return 0;
    }
    let whole = (n - 1) / 8 * 8;
    let rest = n - whole;
    ((bits >> rest) * 256 + bits % (1u64 << rest)) << (56 - whole)
}
