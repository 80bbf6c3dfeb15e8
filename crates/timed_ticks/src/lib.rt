// Calls of the station's tick for the clock in timing/. One call ticks over the same levels again and again and answers one number, which the clock
// compares with the Rust's.
#![tactic(auto)]

ghost use Rattle.std.specs.Prelude.{◌≡◌, ◌+◌, ◌≤◌, ◌<◌};
ghost use Rattle.laws.specs.Bit.{bit};
ghost use Rattle.fsm.specs.Station.{new_station};
ghost use Rattle.fsm.specs.Ticking.{ticked};
ghost use Rattle.timed_ticks.specs.Ticks.{starts_of, level_of, pass_of, summed, timed_from};

use fsm::{BusState, DaliBitbangPhy};
use halfbits::HalfBitBuffer;

const LEVELS: usize = 4_096;

// The longest frame that a start takes.
const FRAME: HalfBitBuffer = HalfBitBuffer {
    data: [0xA6, 0x59, 0x96, 0xA9, 0x55, 0x6A, 0x80],
    length: HalfBitBuffer::MAX_DATA_HALF_BITS,
};

#[derive(Drop)]
struct Pass {
    station: DaliBitbangPhy,
    highs: u32,
}

#[tactic(auto, unfolding(crate::specs::Ticks::starts_of, machine::specs::States::is_idle, laws::specs::Pick::pick))]
fn starts(sends: bool, station: DaliBitbangPhy) -> bool
    ensures { result ≡ starts_of sends station }
{
    sends && station.bus_state() == BusState::Idle
}

#[tactic(auto, unfolding(crate::specs::Ticks::level_of, laws::specs::Pick::pick))]
fn level_of(sends: bool, driven_high: bool, level: u8) -> bool
    ensures { result ≡ level_of sends driven_high level }
{
    if sends { driven_high } else { level != 0 }
}

fn counted(highs: u32, driven_high: bool) -> u32
    requires { highs < 4096 }
    ensures { result ≡ highs + bit driven_high }
{
    highs + u32::from(driven_high)
}

// Each tick takes the station that the one before it left.
fn one_pass(sends: bool, from: DaliBitbangPhy, levels: &[u8; LEVELS]) -> Pass
    ensures value { result ≡ pass_of sends from levels.now }
    ensures highs_bound { result.highs ≤ 4096 }
{
    let mut station = from;
    let mut highs: u32 = 0;
    for level in levels {
        if starts(sends, station) {
            station = station.start_tx(FRAME).station;
        }
        let ticked = station.tick(level_of(sends, station.driven_high(), *level));
        station = ticked.station;
        highs = counted(highs, ticked.driven_high);
    }
    Pass { station, highs }
}

#[tactic(auto, unfolding(crate::specs::Ticks::summed, event::specs::Event::event_of))]
fn sum_of(sum: u64, left: u32, pass: Pass) -> u64
    requires { pass.highs ≤ 4096 }
    ensures { result ≡ summed sum left pass }
{
    let event = pass.station.last_rx_event();
    let highs = u64::from(pass.highs);
    let idle = u64::from(pass.station.idle_tick_count());
    let count = u64::from(event.sample_count);
    let byte = u64::from(event.samples[(left % 64) as usize]);
    sum % 4_294_967_296 * 31 + (highs + idle + count * 3 + byte)
}

// A foreign caller passes no closure, so `sends` is a flag.
#[unsafe(no_mangle)]
pub extern "C" fn timed_ticks(levels: &[u8; LEVELS], passes: u32, sends: bool) -> u64
    ensures { result ≡ timed_from sends levels.now passes new_station 0 }
{
    let mut station = DaliBitbangPhy::new();
    let mut sum: u64 = 0;
    for left in (0..passes).rev() {
        let pass = one_pass(sends, station, levels);
        station = pass.station;
        sum = sum_of(sum, left, pass);
    }
    sum
}

// The level that a new station drives after one tick, by the form that firmware calls. The library contains `in_place::tick` only because of this
// call. timing/native finds it there for the clock, which calls it one tick at a time.
#[unsafe(no_mangle)]
pub extern "C" fn first_level(bus_is_high: bool) -> bool
    ensures { result ≡ (ticked new_station bus_is_high).driven_high }
{
    copied_tick::tick_lent(DaliBitbangPhy::new(), bus_is_high, true).driven_high
}
