// The station of source document 000 (fsm.rs): its captures, its tick and every other call. A station goes in and comes back by value.
#![tactic(auto)]

ghost use Rattle.std.specs.Prelude.{◌≡◌, true, not, ◌+◌, ◌-◌, ◌*◌, ◌%◌, min, eqb};
ghost use Rattle.laws.specs.Bit.{bit};
ghost use Rattle.capture.specs.Samples.{with_byte};
ghost use Rattle.machine.specs.States.{is_idle, hears};
ghost use Rattle.fsm.specs.Constants.{public_constants};
ghost use Rattle.fsm.specs.Station.{last_event, with_core, new_core, new_station};
ghost use Rattle.fsm.specs.Rx.{shifted, high_run, filled_up, shifted_in, sampled, finished, notified, went_on, rx_tick};
ghost use Rattle.fsm.specs.Ticking.{tick_in, ticked};
ghost use Rattle.fsm.specs.Refusals.{start_error_number, start_answer_number, start_number};
ghost use Rattle.fsm.specs.Starting.{length_fits, started, start_tx_of, start_answer_of};
ghost use Rattle.fsm.specs.Polling.{poll_result_number, SaysPoll, polled};
ghost use Rattle.fsm.specs.Calls.{with_policy, took_idle, acknowledged, took_rx};

use capture::Samples;
pub use event::{DALI_RX_SAMPLE_BUF_LEN, LINE_HELD_TICKS, PHY_TICK_US, RxCompletedEvent};
use halfbits::HalfBitBuffer;
use machine::{Bus, Core, Runs, Rx, Told, Tx, TxHb};
pub use machine::{
    BusState, COLLISION_BREAK_TICKS, CollisionPolicy, RX_IDLE_LINE_HIGH_TICKS,
    RX_START_DEBOUNCE_TICKS, RxState, TX_ARM_LEAD_TICKS, TX_HALF_BIT_TICKS,
};

const MAX_RX_IDX: u16 = DALI_RX_SAMPLE_BUF_LEN as u16 - 1;

// Nobody calls this: its promise says what each public constant is.
fn constants() -> PublicConstants
    ensures { result ≡ public_constants }
{
    PublicConstants {
        rx_buf_size: DaliBitbangPhy::RX_BUF_SIZE,
    }
}

#[derive(Drop)]
struct PublicConstants {
    rx_buf_size: usize,
}

#[derive(Clone, Copy)]
pub enum TxPollResult {
    Ok = 0,
    Collision = 3,
    Transmitting = 4,
    Yielded = 5,
}

// Why a station refuses a start: its state doesn't allow one, or it can't send a frame of this length.
#[derive(Clone, Copy, PartialEq, Eq)]
pub enum StartError {
    Busy = 7,
    BadLength = 8,
}

// Nobody calls these two: their promises say what number each case has.

fn tx_poll_result_number(res: TxPollResult) -> u8
    ensures { result ≡ poll_result_number res }
{
    res as u8
}

fn start_error_number(error: StartError) -> u8
    ensures { result ≡ start_error_number error }
{
    error as u8
}

pub fn settle_ticks_on_wire(pre_idle_ticks: u16, lead: u8) -> u16
    ensures { result ≡ min (pre_idle_ticks + lead) 65535 }
{
    pre_idle_ticks.saturating_add(u16::from(lead))
}

// IEC 62386-101, 9.1.4
pub fn restart_gate_for(release_to_edge_ticks: u8) -> u8
    ensures { result ≡ release_to_edge_ticks - 4 }
{
    release_to_edge_ticks.saturating_sub(TX_ARM_LEAD_TICKS + 1)
}

// Three fields are public for `in_place`, which changes a station that it is lent. All promises hold whoever wrote them. The other two make the last
// event: its capture, and how far that had come when it ended.
#[derive(Clone, Copy)]
pub struct DaliBitbangPhy {
    pub core: Core,
    pub tx_hb: TxHb,
    pub rx_data: Samples,
    event_data: Samples,
    event_rx: Rx,
}

// Calls that change a station give it back beside their answer. A tick's has a name of its own, which says what the bool is.

#[derive(Clone, Copy)]
pub struct Ticked {
    pub station: DaliBitbangPhy,
    pub driven_high: bool,
}

#[derive(Clone, Copy)]
pub struct Answered<T> {
    pub station: DaliBitbangPhy,
    pub answer: T,
}

// A new sample goes to the low end of its byte.
fn shifted(rx_byte: u8, bus_is_high: bool) -> u8
    ensures { result ≡ rx_byte % 128 * 2 + bit bus_is_high }
{
    rx_byte % 128 * 2 + u8::from(bus_is_high)
}

#[tactic(auto, unfolding(crate::specs::Rx::high_run, laws::specs::Pick::pick))]
fn high_run(rx: Rx, bus_is_high: bool) -> u8
    ensures { result ≡ high_run rx bus_is_high }
{
    if bus_is_high {
        return machine::saturating_inc8(rx.rx_idle);
    }
    0
}

// The eighth sample fills its byte. It has a function of its own, so that only one tick in eight computes a position.
fn with_eighth(rx: Rx, bus_is_high: bool) -> Rx
    ensures { result ≡ filled_up rx bus_is_high }
{
    Rx {
        rx_pos: machine::saturating_inc16(rx.rx_pos).min(MAX_RX_IDX),
        rx_byte: shifted(rx.rx_byte, bus_is_high),
        rx_bit_cnt: 0,
        rx_idle: high_run(rx, bus_is_high),
        ..rx
    }
}

fn with_sample(rx: Rx, bus_is_high: bool) -> Rx
    ensures { result ≡ shifted_in rx bus_is_high }
{
    Rx {
        rx_byte: shifted(rx.rx_byte, bus_is_high),
        rx_bit_cnt: rx.rx_bit_cnt.wrapping_add(1),
        rx_idle: high_run(rx, bus_is_high),
        ..rx
    }
}

#[tactic(auto, unfolding(crate::specs::Rx::sampled, laws::specs::Pick::pick))]
pub fn sample(rx: Rx, bus_is_high: bool) -> Rx
    ensures { result ≡ sampled rx bus_is_high }
{
    if rx.rx_bit_cnt == 7 {
        return with_eighth(rx, bus_is_high);
    }
    with_sample(rx, bus_is_high)
}

// The eighth sample writes its byte to the capture. All bytes past the 63rd go to slot 63.
pub fn fill(rx_data: Samples, rx: Rx, bus_is_high: bool) -> Samples
    ensures { result ≡ with_byte rx_data (min rx.rx_pos 63) (shifted rx bus_is_high) }
{
    rx_data.with_byte(
        rx.rx_pos.min(MAX_RX_IDX) as usize,
        shifted(rx.rx_byte, bus_is_high),
    )
}

// A capture ends with one byte for the idle line.
pub fn with_end(rx_data: Samples, rx: Rx) -> Samples
    ensures { result ≡ with_byte rx_data rx.rx_pos 255 }
{
    rx_data.with_byte(rx.rx_pos as usize, 0xFF)
}

// The byte for the idle line counts too.
#[tactic(auto, unfolding(crate::specs::Rx::finished))]
pub fn end_rx(mut core: Core, rx: Rx) -> Core
    ensures { result ≡ finished core rx }
{
    core.rx = Rx {
        rx_pos: machine::saturating_inc16(rx.rx_pos),
        ..rx
    };
    core.told = Told {
        rx_state: RxState::Completed,
        ..core.told
    };
    core.set_bus_idle()
}

#[tactic(auto, unfolding(crate::specs::Starting::length_fits))]
fn length_fits(length: u8) -> bool
    ensures { result ≡ length_fits length }
{
    length != 0 && length <= HalfBitBuffer::MAX_DATA_HALF_BITS
}

#[tactic(auto, unfolding(crate::specs::Station::new_core))]
fn new_core() -> Core
    ensures { result ≡ new_core }
{
    Core {
        told: Told {
            tx_pre_idle: 0,
            rx_state: RxState::Empty,
            tx_collision: 0,
            tx_idle_after_break: false,
            tx_yielded: false,
        },
        collision_policy: CollisionPolicy::Auto,
        bus: Bus {
            idlecnt: 0,
            bus_state: BusState::Idle,
            rx_debounce: 0,
            driven_high: true,
            tx_busy: false,
        },
        tx: Tx {
            tx_high: 0,
            tx_armed: 0,
            tx_hb_cnt: 0,
            tx_sp_cnt: 0,
            tx_answer: false,
        },
        rx: Rx {
            rx_pos: 0,
            rx_byte: 0,
            rx_bit_cnt: 0,
            rx_idle: 0,
            rx_pre_idle: 0,
        },
        runs: Runs {
            high_run_ticks: 0,
            low_run_ticks: 0,
        },
    }
}

impl DaliBitbangPhy {
    pub const RX_BUF_SIZE: usize = DALI_RX_SAMPLE_BUF_LEN;

    #[tactic(auto, unfolding(crate::specs::Station::new_station))]
    pub fn new() -> DaliBitbangPhy
        ensures { result ≡ new_station }
    {
        let core = new_core();
        let samples = Samples::new();
        DaliBitbangPhy {
            core,
            tx_hb: TxHb {
                tx_hb_bits: 0,
                tx_hb_len: 0,
            },
            rx_data: samples,
            event_data: samples,
            event_rx: core.rx,
        }
    }

    #[tactic(auto, unfolding(crate::specs::Calls::with_policy))]
    pub fn set_collision_policy(mut self, p: CollisionPolicy) -> DaliBitbangPhy
        ensures { result ≡ with_policy self p }
    {
        self.core.collision_policy = p;
        self
    }

    fn with_core(mut self, core: Core) -> DaliBitbangPhy
        ensures { result ≡ with_core self core }
    {
        self.core = core;
        self
    }

    // The capture that has ended becomes the last event.
    #[tactic(auto, unfolding(crate::specs::Rx::notified))]
    pub fn finish_rx_and_notify(mut self, core: Core, rx_data: Samples) -> DaliBitbangPhy
        ensures { result ≡ notified self core rx_data }
    {
        self.core = core;
        self.rx_data = rx_data;
        self.event_data = rx_data;
        self.event_rx = core.rx;
        self
    }

    #[tactic(auto, unfolding(crate::specs::Rx::rx_tick, crate::specs::Rx::sampled, crate::specs::Rx::filled, laws::specs::Pick::pick))]
    fn tick_rx(self, core: Core, bus_is_high: bool) -> DaliBitbangPhy
        ensures { result ≡ rx_tick self core bus_is_high }
    {
        if core.rx.rx_bit_cnt == 7 {
            let rx = with_eighth(core.rx, bus_is_high);
            let rx_data = fill(self.rx_data, core.rx, bus_is_high);
            return self.go_on(core, rx, rx_data);
        }
        let rx = with_sample(core.rx, bus_is_high);
        self.go_on(core, rx, self.rx_data)
    }

    // The capture goes on, or the sixteenth high running ends it.
    #[tactic(auto, unfolding(crate::specs::Rx::went_on, laws::specs::Pick::pick))]
    fn go_on(mut self, mut core: Core, rx: Rx, rx_data: Samples) -> DaliBitbangPhy
        ensures { result ≡ went_on self core rx rx_data }
    {
        if rx.rx_idle < RX_IDLE_LINE_HIGH_TICKS {
            core.rx = rx;
            self.core = core;
            self.rx_data = rx_data;
            return self;
        }
        self.finish_rx_and_notify(end_rx(core, rx), with_end(rx_data, rx))
    }

    #[tactic(auto, using(crate::proofs::Ticks::acted))]
    pub fn tick(self, bus_is_high: bool) -> Ticked
        ensures { result ≡ ticked self bus_is_high }
    {
        let station = self.act(self.core.count_runs(bus_is_high), bus_is_high);
        Ticked {
            station,
            driven_high: station.core.bus.driven_high,
        }
    }

    // `core` is the station's core after it has counted its runs.
    #[tactic(auto, unfolding(crate::specs::Ticking::tick_in))]
    fn act(self, core: Core, bus_is_high: bool) -> DaliBitbangPhy
        ensures { result ≡ tick_in core.bus.bus_state self core bus_is_high }
    {
        match core.bus.bus_state {
            BusState::Idle => self.with_core(core.tick_idle(bus_is_high)),
            BusState::Rx => self.tick_rx(core, bus_is_high),
            BusState::Tx => self.with_core(core.tick_tx(self.tx_hb, bus_is_high)),
            BusState::CollisionTx => self.with_core(core.tick_collision_tx(bus_is_high)),
        }
    }

    #[tactic(auto, unfolding(crate::specs::Refusals::start_number, crate::specs::Starting::start_tx_of, machine::specs::States::is_idle, laws::specs::Pick::pick))]
    pub fn start_tx(self, halfbits: HalfBitBuffer) -> Answered<Result<(), StartError>>
        ensures value { result ≡ start_tx_of self halfbits }
        ensures answer_value { start_answer_number result.answer ≡ start_number (is_idle self.core.bus.bus_state) (length_fits halfbits.length) }
    {
        if self.bus_state() == BusState::Idle {
            return self.load_tx(halfbits, false);
        }
        Answered {
            station: self,
            answer: Err(StartError::Busy),
        }
    }

    // IEC 62386-101, 9.1.1, Table 17
    #[tactic(auto, unfolding(crate::specs::Refusals::start_number, crate::specs::Starting::start_answer_of, machine::specs::States::hears, laws::specs::Pick::pick))]
    pub fn start_answer(self, halfbits: HalfBitBuffer) -> Answered<Result<(), StartError>>
        ensures value { result ≡ start_answer_of self halfbits }
        ensures answer_value { start_answer_number result.answer ≡ start_number (hears self.core.bus.bus_state) (length_fits halfbits.length) }
    {
        if matches!(self.bus_state(), BusState::Idle | BusState::Rx) {
            return self.load_tx(halfbits, true);
        }
        Answered {
            station: self,
            answer: Err(StartError::Busy),
        }
    }

    #[tactic(auto, unfolding(crate::specs::Refusals::start_number, crate::specs::Starting::started, crate::specs::Starting::loaded_with, laws::specs::Pick::pick))]
    fn load_tx(mut self, halfbits: HalfBitBuffer, answer: bool) -> Answered<Result<(), StartError>>
        ensures value { result ≡ started self halfbits answer }
        ensures answer_value { start_answer_number result.answer ≡ start_number true (length_fits halfbits.length) }
    {
        if !length_fits(halfbits.length) {
            return Answered {
                station: self,
                answer: Err(StartError::BadLength),
            };
        }
        self.core = self.core.load_tx(answer);
        self.tx_hb = TxHb::of(halfbits);
        Answered {
            station: self,
            answer: Ok(()),
        }
    }

    pub fn bus_state(self) -> BusState
        ensures { result ≡ self.core.bus.bus_state }
    {
        self.core.bus.bus_state
    }

    pub fn line_debouncing(self) -> bool
        ensures { result ≡ not (eqb self.core.bus.rx_debounce 0) }
    {
        self.core.bus.rx_debounce != 0
    }

    #[tactic(auto, unfolding(crate::specs::Polling::polled, crate::specs::Polling::SaysPoll, machine::specs::States::is_tx, laws::specs::Pick::pick))]
    pub fn poll_tx_state(mut self) -> Answered<TxPollResult>
        ensures value { result ≡ polled self }
        ensures says_poll { SaysPoll result.answer self }
    {
        let answer = if self.core.told.tx_yielded {
            self.core.told.tx_yielded = false;
            TxPollResult::Yielded
        } else if self.core.told.tx_collision != 0 {
            self.core.told.tx_collision = 0;
            TxPollResult::Collision
        } else if self.bus_state() == BusState::Tx {
            TxPollResult::Transmitting
        } else {
            TxPollResult::Ok
        };
        Answered {
            station: self,
            answer,
        }
    }

    // IEC 62386-101, 9.1.4
    #[tactic(auto, unfolding(crate::specs::Calls::took_idle))]
    pub fn take_idle_after_break(mut self) -> Answered<bool>
        ensures { result ≡ took_idle self }
    {
        let answer = self.core.told.tx_idle_after_break;
        self.core.told.tx_idle_after_break = false;
        Answered {
            station: self,
            answer,
        }
    }

    pub fn rx_state(self) -> RxState
        ensures { result ≡ self.core.told.rx_state }
    {
        self.core.told.rx_state
    }

    pub fn idle_tick_count(self) -> u16
        ensures { result ≡ self.core.bus.idlecnt }
    {
        self.core.bus.idlecnt
    }

    pub fn bus_low_run_ticks(self) -> u16
        ensures { result ≡ self.core.runs.low_run_ticks }
    {
        self.core.runs.low_run_ticks
    }

    pub fn tx_pre_idle_ticks(self) -> u16
        ensures { result ≡ self.core.told.tx_pre_idle }
    {
        self.core.told.tx_pre_idle
    }

    pub fn rx_pre_idle_ticks(self) -> u8
        ensures { result ≡ self.core.rx.rx_pre_idle }
    {
        self.core.rx.rx_pre_idle
    }

    pub fn tx_busy(self) -> bool
        ensures { result ≡ self.core.bus.tx_busy }
    {
        self.core.bus.tx_busy
    }

    // The level that the station drives. In the Rust it is the last one that the HAL was told.
    pub fn driven_high(self) -> bool
        ensures { result ≡ self.core.bus.driven_high }
    {
        self.core.bus.driven_high
    }

    pub fn last_rx_event(self) -> RxCompletedEvent
        ensures { result ≡ last_event self }
    {
        RxCompletedEvent::of_capture(
            self.event_data.bytes(),
            self.event_rx.rx_pos,
            self.event_rx.rx_pre_idle,
        )
    }

    #[tactic(auto, unfolding(crate::specs::Calls::acknowledged, machine::specs::States::is_completed, laws::specs::Pick::pick))]
    pub fn acknowledge_rx_frame(mut self) -> DaliBitbangPhy
        ensures { result ≡ acknowledged self }
    {
        if self.rx_state() == RxState::Completed {
            self.core.told.rx_state = RxState::Empty;
        }
        self
    }

    #[tactic(auto, unfolding(crate::specs::Calls::took_rx, crate::specs::Calls::acknowledged, machine::specs::States::is_completed, laws::specs::Pick::pick))]
    pub fn take_completed_rx_event(self) -> Answered<Option<RxCompletedEvent>>
        ensures { result ≡ took_rx self }
    {
        if self.rx_state() != RxState::Completed {
            return Answered {
                station: self,
                answer: None,
            };
        }
        Answered {
            station: self.acknowledge_rx_frame(),
            answer: Some(self.last_rx_event()),
        }
    }
}
