// The event of a capture, from source document 000 (fsm.rs). A station hands it out, and the readings read it. `IsrDecode` is source document 001's
// (manchester.rs).
#![tactic(auto)]

ghost use Rattle.std.specs.Prelude.{◌≡◌};
ghost use Rattle.event.specs.Constants.{public_constants};
ghost use Rattle.event.specs.Event.{event_of, new_event};

pub use window::DALI_RX_SAMPLE_BUF_LEN;
use window::PhaseDecode;

pub const PHY_TICK_US: u32 = 104;

pub const LINE_HELD_TICKS: u16 = 24;

// Nobody calls this: its promise says what each public constant is.
fn constants() -> PublicConstants
    ensures { result ≡ public_constants }
{
    PublicConstants {
        phy_tick_us: PHY_TICK_US,
        line_held_ticks: LINE_HELD_TICKS,
        max_samples: RxCompletedEvent::MAX_SAMPLES,
    }
}

#[derive(Drop)]
struct PublicConstants {
    phy_tick_us: u32,
    line_held_ticks: u16,
    max_samples: usize,
}

// What the search found, if the interrupt has already searched. It is the Rust's own enum: an Option of an Option would say no more.
#[derive(Clone, Copy)]
pub enum IsrDecode {
    NotDecoded,
    Decoded(Option<PhaseDecode>),
}

// The fields are the Rust's. Memory is fixed, so the count stands beside the room for the samples.
#[derive(Clone, Copy)]
pub struct RxCompletedEvent {
    pub samples: [u8; DALI_RX_SAMPLE_BUF_LEN],
    pub sample_count: u16,
    pub pre_idle_ticks: u8,
    pub rx_epoch: u8,
    pub rx_tick: u32,
    pub max_sample_gap_us: u32,
    pub timing_degraded: bool,
    pub sniff_seq: u32,
    pub isr_decode: IsrDecode,
}

impl RxCompletedEvent {
    pub const MAX_SAMPLES: usize = DALI_RX_SAMPLE_BUF_LEN;

    #[tactic(auto, unfolding(crate::specs::Event::new_event))]
    pub fn new() -> RxCompletedEvent
        ensures { result ≡ new_event }
    {
        RxCompletedEvent::of_capture([0; DALI_RX_SAMPLE_BUF_LEN], 0, 0)
    }

    // The machine sets no other field, so the others are those of a fresh event.
    #[tactic(auto, unfolding(crate::specs::Event::event_of))]
    pub fn of_capture(
        samples: [u8; DALI_RX_SAMPLE_BUF_LEN],
        sample_count: u16,
        pre_idle_ticks: u8,
    ) -> RxCompletedEvent
        ensures { result ≡ event_of samples sample_count pre_idle_ticks }
    {
        RxCompletedEvent {
            samples,
            sample_count,
            pre_idle_ticks,
            rx_epoch: 0,
            rx_tick: 0,
            max_sample_gap_us: 0,
            timing_degraded: false,
            sniff_seq: 0,
            isr_decode: IsrDecode::NotDecoded,
        }
    }
}
