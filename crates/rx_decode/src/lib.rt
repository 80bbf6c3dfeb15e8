// The readings of an event, from source document 003 (rx_decode.rs).
#![tactic(auto)]

ghost use Rattle.std.specs.Prelude.{◌≡◌, ◌≤◌};
ghost use Rattle.rx_decode.specs.Reading.{frame_of, sniffed_of, searched_in, found_in, byte_in, low_run_of, held_of};
ghost use Rattle.rx_decode.specs.Kinds.{SaysFrame, SaysByte};
ghost use Rattle.rx_decode.specs.Code.{after_tick, after_byte};
ghost use Rattle.lengths.specs.Lengths.{backward_lengths};

use event::{IsrDecode, LINE_HELD_TICKS, RxCompletedEvent};
use lengths::{BACKWARD_FRAME_BIT_LENGTHS, BitLengths, SNIFFED_BIT_LENGTHS};
use search::BestPhaseSearch;
use window::{PhaseDecode, SampleWindow};

#[derive(Clone, Copy)]
pub enum SniffedFrame {
    Forward16(u16),
    Backward8(u8),
    Forward24(u8, u8, u8),
    UnsupportedLength(u8),
    DecodeFailed,
}

#[derive(Clone, Copy)]
pub struct SniffedDecode {
    pub frame: SniffedFrame,
    pub phase_ticks: i8,
    pub score: u16,
}

#[tactic(auto, unfolding(crate::specs::Reading::searched_in))]
fn try_decode(ev: RxCompletedEvent, preferred: BitLengths) -> Option<PhaseDecode>
    ensures { result ≡ searched_in preferred ev }
{
    let window = SampleWindow::of_capture(&ev.samples, ev.sample_count);
    BestPhaseSearch::new(preferred).run(window).found
}

// Document 01 asks for let-else here.
#[tactic(auto, using(crate::proofs::Telling::tells_byte, lengths::proofs::Masks::backward_mask), unfolding(crate::specs::Reading::byte_in, crate::specs::Reading::byte_of, laws::specs::Pick::pick))]
pub fn decode_backward_byte(ev: RxCompletedEvent) -> Option<u8>
    ensures value { result ≡ byte_in (searched_in backward_lengths ev) }
    ensures says_byte { SaysByte result (searched_in backward_lengths ev) }
{
    let Some(result) = try_decode(ev, BACKWARD_FRAME_BIT_LENGTHS) else {
        return None;
    };
    if result.bit_len == 8 {
        Some(result.data.to_be_bytes()[0])
    } else {
        None
    }
}

pub fn decode_sniffed(ev: RxCompletedEvent) -> SniffedFrame
    ensures value { result ≡ (sniffed_of (found_in ev)).frame }
    ensures says_frame { SaysFrame result (found_in ev) }
{
    decode_sniffed_with_phase(ev).frame
}

#[tactic(auto, using(crate::proofs::Telling::tells_failed, crate::proofs::Telling::tells_frame), unfolding(crate::specs::Reading::sniffed_of))]
pub fn decode_sniffed_with_phase(ev: RxCompletedEvent) -> SniffedDecode
    ensures value { result ≡ sniffed_of (found_in ev) }
    ensures says_frame { SaysFrame result.frame (found_in ev) }
{
    let Some(result) = found_in(ev) else {
        return SniffedDecode {
            frame: SniffedFrame::DecodeFailed,
            phase_ticks: 0,
            score: 0,
        };
    };
    SniffedDecode {
        frame: sniffed_from_decoded(result.bit_len, result.data),
        phase_ticks: result.phase_ticks,
        score: result.score,
    }
}

// The event's own finished search counts. Only if the event holds none does the reading search.
#[tactic(auto, using(lengths::proofs::Masks::sniffed_mask), unfolding(crate::specs::Reading::found_or))]
fn found_in(ev: RxCompletedEvent) -> Option<PhaseDecode>
    ensures { result ≡ found_in ev }
{
    match ev.isr_decode {
        IsrDecode::Decoded(found) => found,
        IsrDecode::NotDecoded => try_decode(ev, SNIFFED_BIT_LENGTHS),
    }
}

pub fn longest_dominant_run_ticks(ev: RxCompletedEvent) -> u16
    ensures { result ≡ low_run_of ev }
{
    let n = window::samples_kept(ev.sample_count);
    let mut runs = LowRuns { best: 0, run: 0 };
    for byte in &ev.samples[..n] {
        runs = runs.after_byte(*byte);
    }
    runs.best
}

pub fn is_line_held(ev: RxCompletedEvent) -> bool
    ensures { result ≡ held_of ev }
{
    LINE_HELD_TICKS <= longest_dominant_run_ticks(ev)
}

// The longest low run so far, and the low run at the last tick, which is 0 if that was high.
#[derive(Clone, Copy)]
struct LowRuns {
    best: u16,
    run: u16,
}

impl LowRuns {
    // One more tick. Its level is 0 for low.
    #[tactic(auto, unfolding(crate::specs::Code::after_tick, laws::specs::Pick::pick))]
    fn after_tick(self, level: u8) -> LowRuns
        requires { self.run ≤ 511 }
        ensures { result ≡ after_tick self level }
    {
        let run = if level == 0 { self.run + 1 } else { 0 };
        LowRuns {
            best: self.best.max(run),
            run,
        }
    }

    // Eight more ticks, the top bit first. A run goes on from one byte into the next.
    fn after_byte(self, byte: u8) -> LowRuns
        requires { self.run ≤ 504 }
        ensures { result ≡ after_byte self byte }
    {
        let mut runs = self;
        for at in 0..8u8 {
            runs = runs.after_tick((byte >> (7 - at)) % 2);
        }
        runs
    }
}

#[tactic(auto, unfolding(crate::specs::Reading::frame_of, crate::specs::Reading::byte_of, laws::specs::Pick::pick))]
fn sniffed_from_decoded(dlen: u8, data: u64) -> SniffedFrame
    ensures { result ≡ frame_of dlen «data» }
{
    let out = data.to_be_bytes();
    match dlen {
        8 => SniffedFrame::Backward8(out[0]),
        16 => SniffedFrame::Forward16(out[0] as u16 * 256 + out[1] as u16),
        24 => SniffedFrame::Forward24(out[0], out[1], out[2]),
        other => SniffedFrame::UnsupportedLength(other),
    }
}
