// Reads a capture of the book once: its decode, its longest low run, and the steps of its search.
#![tactic(auto)]

ghost use Rattle.std.specs.Prelude.{◌≡◌};
ghost use Rattle.bench_reading.specs.Reading.{reading_of, is_decoded};
ghost use Rattle.bench_reading.specs.Code.{held_event};

use bench_text::Capture;
use event::{IsrDecode, RxCompletedEvent};
use lengths::SNIFFED_BIT_LENGTHS;
use rx_decode::{SniffedDecode, SniffedFrame};
use search::BestPhaseSearch;
use window::{PhaseDecode, SampleWindow};

#[derive(Clone, Copy)]
pub struct Reading {
    pub decode: SniffedDecode,
    pub low_run: u16,
    pub steps: u8,
}

// The search runs here, since the reading tells its steps. The event is given what the search found, so the sniffed reading does not search again.
#[tactic(auto, using(crate::proofs::Handed::reading, lengths::proofs::Masks::sniffed_mask))]
pub fn read_capture(capture: Capture) -> Reading
    ensures { result ≡ reading_of capture }
{
    let window = SampleWindow::of_capture(&capture.samples, capture.count as u16);
    let answer = BestPhaseSearch::new(SNIFFED_BIT_LENGTHS).run(window);
    let event = event_with(capture, answer.found);
    Reading {
        decode: rx_decode::decode_sniffed_with_phase(event),
        low_run: rx_decode::longest_dominant_run_ticks(event),
        steps: answer.steps,
    }
}

// The event of a capture, which holds what a finished search found.
#[tactic(auto, unfolding(crate::specs::Code::held_event, crate::specs::Reading::event_for))]
fn event_with(capture: Capture, found: Option<PhaseDecode>) -> RxCompletedEvent
    ensures { result ≡ held_event capture found }
{
    RxCompletedEvent {
        isr_decode: IsrDecode::Decoded(found),
        ..RxCompletedEvent::of_capture(capture.samples, capture.count as u16, capture.silence)
    }
}

// Only frames of 8, 16 and 24 bits are decoded.
#[tactic(auto, unfolding(crate::specs::Reading::is_frame))]
pub fn is_decoded(reading: Reading) -> bool
    ensures { result ≡ is_decoded reading }
{
    matches!(
        reading.decode.frame,
        SniffedFrame::Forward16(_) | SniffedFrame::Backward8(_) | SniffedFrame::Forward24(_, _, _)
    )
}
