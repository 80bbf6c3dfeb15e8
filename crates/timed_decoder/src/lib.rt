// Calls of the decoder for the clock in timing/. Each answers one number, which the clock compares with the Rust's.
#![tactic(auto)]

ghost use Rattle.std.specs.Prelude.{◌≡◌};
ghost use Rattle.window.specs.Window.{window_of};
ghost use Rattle.window.specs.Phase.{phase_of};
ghost use Rattle.search.specs.Search.{new_of, run_of};
ghost use Rattle.lengths.specs.Lengths.{sniffed_lengths};
ghost use Rattle.event.specs.Event.{event_of};
ghost use Rattle.rx_decode.specs.Reading.{sniffed_of, found_in};
ghost use Rattle.timed_decoder.specs.Digest.{digest_of, answer_of, frame_digest, sniffed_digest};

use event::RxCompletedEvent;
use lengths::SNIFFED_BIT_LENGTHS;
use rx_decode::{SniffedDecode, SniffedFrame};
use search::BestPhaseSearch;
use window::{DALI_RX_SAMPLE_BUF_LEN, PhaseDecode, SampleWindow};

// The first four data bytes on top, then the length, then the score.
#[tactic(auto, unfolding(crate::specs::Digest::digest_of))]
fn digest(decode: PhaseDecode) -> u64
    ensures { result ≡ digest_of decode }
{
    let told = decode.bit_len as u64 * 65_536 + decode.score as u64;
    decode.data / 0x1_0000_0000 * 0x1_0000_0000 + told
}

#[unsafe(no_mangle)]
pub extern "C" fn timed_phase(
    samples: &[u8; DALI_RX_SAMPLE_BUF_LEN],
    sample_count: u16,
    max_out_bits: u8,
    phase_ticks: i8,
) -> u64
    ensures { result ≡ digest_of (phase_of (window_of samples.now sample_count) max_out_bits phase_ticks) }
{
    let window = SampleWindow::of_capture(samples, sample_count);
    digest(window.decode_phase(max_out_bits, phase_ticks))
}

#[tactic(auto, using(lengths::proofs::Masks::sniffed_mask), unfolding(crate::specs::Digest::found_of))]
#[unsafe(no_mangle)]
pub extern "C" fn timed_search(samples: &[u8; DALI_RX_SAMPLE_BUF_LEN], sample_count: u16) -> u64
    ensures { result ≡ answer_of (run_of (new_of sniffed_lengths) (window_of samples.now sample_count)) }
{
    let window = SampleWindow::of_capture(samples, sample_count);
    let answer = BestPhaseSearch::new(SNIFFED_BIT_LENGTHS).run(window);
    answer.found.map_or(0, digest)
}

// The frame kind on top, then its bytes or its length.
#[tactic(auto, unfolding(crate::specs::Digest::frame_digest))]
fn frame_digest(frame: SniffedFrame) -> u32
    ensures { result ≡ frame_digest frame }
{
    match frame {
        SniffedFrame::Forward16(word) => 0x1000_0000 + word as u32,
        SniffedFrame::Backward8(byte) => 0x0800_0000 + byte as u32,
        SniffedFrame::Forward24(first, second, third) => {
            0x1800_0000 + first as u32 * 65_536 + second as u32 * 256 + third as u32
        }
        SniffedFrame::UnsupportedLength(length) => 0x2000_0000 + length as u32,
        SniffedFrame::DecodeFailed => 0,
    }
}

#[tactic(auto, unfolding(crate::specs::Digest::sniffed_digest))]
fn sniffed_digest(decode: SniffedDecode) -> u64
    ensures { result ≡ sniffed_digest decode }
{
    frame_digest(decode.frame) as u64 * 65_536 + decode.score as u64
}

// An event holds an enum, so a foreign caller can't hand one over. This call makes the event from its capture, and the clock counts that time too.
#[unsafe(no_mangle)]
pub extern "C" fn timed_sniffed(samples: &[u8; DALI_RX_SAMPLE_BUF_LEN], sample_count: u16) -> u64
    ensures { result ≡ sniffed_digest (sniffed_of (found_in (event_of samples.now sample_count 0))) }
{
    let ev = RxCompletedEvent::of_capture(*samples, sample_count, 0);
    sniffed_digest(rx_decode::decode_sniffed_with_phase(ev))
}
