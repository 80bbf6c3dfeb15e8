// The bench line: one to four stations on one line, numbered from 0. On each tick all stations sample the level that the tick before left.
#![tactic(auto)]

ghost use Rattle.std.specs.Prelude.{◌≡◌, ◌≤◌};
ghost use Rattle.laws.specs.Pick.{pick};
ghost use Rattle.fsm.specs.Starting.{length_fits, start_tx_of, start_answer_of};
ghost use Rattle.machine.specs.States.{is_idle, hears};
ghost use Rattle.fsm.specs.Refusals.{start_number};
ghost use Rattle.fsm.specs.Polling.{polled};
ghost use Rattle.fsm.specs.Calls.{with_policy, took_idle, acknowledged, took_rx};
ghost use Rattle.bench_line.specs.Constants.{public_constants};
ghost use Rattle.bench_line.specs.Line.{stations_on, is_on, station_at, with_station, new_line_of, all_ticked, level_left, line_ticked};
ghost use Rattle.bench_line.specs.Refusals.{is_count, line_error_number, line_number, line_start_number};
ghost use Rattle.bench_line.specs.Calls.{made_line, done, answered_at, seen_at};

use event::RxCompletedEvent;
use fsm::{Answered, CollisionPolicy, DaliBitbangPhy, StartError, TxPollResult};
use halfbits::HalfBitBuffer;

pub const MAX_STATIONS: usize = 4;

// Nobody calls this: its promise says what each public constant is.
fn constants() -> PublicConstants
    ensures { result ≡ public_constants }
{
    PublicConstants {
        max_stations: MAX_STATIONS,
    }
}

#[derive(Drop)]
struct PublicConstants {
    max_stations: usize,
}

// The first `count` of the four places are the line's stations. An array by value is document 01's form.
#[derive(Clone, Copy)]
pub struct BenchLine {
    stations: [DaliBitbangPhy; MAX_STATIONS],
    count: u8,
    level: bool,
}

// Why a line refuses: it has no station of the number that a call names, or no line has so many stations.
#[derive(Clone, Copy, PartialEq, Eq)]
pub enum LineError {
    NoStation = 9,
    BadCount = 10,
}

// Nobody calls this: its promise says what number each case has.
fn line_error_number(error: LineError) -> u8
    ensures { result ≡ line_error_number error }
{
    error as u8
}

// A call that changes a station of the line hands the line back beside the station's own answer.
#[derive(Clone, Copy)]
pub struct LineAnswered<T> {
    pub line: BenchLine,
    pub answer: Result<T, LineError>,
}

// The first `count` stations sample the same level.
#[tactic(auto, unfolding(crate::specs::Line::all_ticked))]
fn tick_all(
    mut stations: [DaliBitbangPhy; MAX_STATIONS],
    count: usize,
    level: bool,
) -> [DaliBitbangPhy; MAX_STATIONS]
    requires { count ≤ 4 }
    ensures { result ≡ all_ticked count level stations }
{
    for i in 0..count {
        stations[i] = stations[i].tick(level).station;
    }
    stations
}

// One of the first `count` stations that drives low is enough to leave the line low.
fn level_left(stations: [DaliBitbangPhy; MAX_STATIONS], count: usize) -> bool
    requires { count ≤ 4 }
    ensures { result ≡ level_left count stations }
{
    stations[..count]
        .iter()
        .all(|station| station.driven_high())
}

#[tactic(auto, unfolding(crate::specs::Refusals::is_count, laws::specs::Pick::pick))]
fn is_count(count: u8) -> bool
    ensures { result ≡ is_count count }
{
    count != 0 && (count as usize) <= MAX_STATIONS
}

impl BenchLine {
    #[tactic(auto, unfolding(crate::specs::Calls::made_line, crate::specs::Refusals::line_number, laws::specs::Pick::pick))]
    pub fn new(count: u8) -> Result<BenchLine, LineError>
        ensures value { result ≡ made_line count }
        ensures answer_value { line_number result ≡ pick (is_count count) 0 10 }
    {
        if !is_count(count) {
            return Err(LineError::BadCount);
        }
        Ok(BenchLine::of(count))
    }

    #[tactic(auto, unfolding(crate::specs::Line::new_line_of))]
    fn of(count: u8) -> BenchLine
        ensures { result ≡ new_line_of count }
    {
        BenchLine {
            stations: [DaliBitbangPhy::new(); MAX_STATIONS],
            count,
            level: true,
        }
    }

    // The count, but never more than the four places.
    fn stations_on(self) -> usize
        ensures { result ≡ stations_on self }
    {
        MAX_STATIONS.min(self.count as usize)
    }

    fn has(self, number: u8) -> bool
        ensures { result ≡ is_on self number }
    {
        (number as usize) < self.stations_on()
    }

    // Past the four places `at` reads a new station, and `with` changes nothing. After `get_mut` a proof knows no station, so `with` compares.

    fn at(self, number: u8) -> DaliBitbangPhy
        ensures { result ≡ station_at self number }
    {
        self.stations
            .get(number as usize)
            .copied()
            .unwrap_or(DaliBitbangPhy::new())
    }

    fn with(mut self, number: u8, station: DaliBitbangPhy) -> BenchLine
        ensures { result ≡ with_station self number station }
    {
        if (number as usize) < MAX_STATIONS {
            self.stations[number as usize] = station;
        }
        self
    }

    // The level that the last tick left. It is high before the first tick.
    pub fn level(self) -> bool
        ensures { result ≡ self.level }
    {
        self.level
    }

    #[tactic(auto, unfolding(crate::specs::Line::line_ticked))]
    pub fn tick(self) -> BenchLine
        ensures { result ≡ line_ticked self }
    {
        let count = self.stations_on();
        let stations = tick_all(self.stations, count, self.level);
        BenchLine {
            stations,
            level: level_left(stations, count),
            ..self
        }
    }

    // A copy of a station, for the calls that change nothing.
    #[tactic(auto, unfolding(crate::specs::Calls::seen_at, crate::specs::Refusals::line_number, laws::specs::Pick::pick))]
    pub fn station(self, number: u8) -> Result<DaliBitbangPhy, LineError>
        ensures value { result ≡ seen_at self number }
        ensures answer_value { line_number result ≡ pick (is_on self number) 0 9 }
    {
        if !self.has(number) {
            return Err(LineError::NoStation);
        }
        Ok(self.at(number))
    }

    pub fn set_collision_policy(self, number: u8, p: CollisionPolicy) -> LineAnswered<()>
        ensures value { result ≡ answered_at self number (done (with_policy (station_at self number) p)) }
        ensures answer_value { line_number result.answer ≡ pick (is_on self number) 0 9 }
    {
        let station = self.at(number).set_collision_policy(p);
        self.after(
            number,
            Answered {
                station,
                answer: (),
            },
        )
    }

    #[tactic(auto, using(crate::proofs::Numbers::started_number))]
    pub fn start_tx(
        self,
        number: u8,
        halfbits: HalfBitBuffer,
    ) -> LineAnswered<Result<(), StartError>>
        ensures value { result ≡ answered_at self number (start_tx_of (station_at self number) halfbits) }
        ensures answer_value { line_start_number result.answer ≡ pick (is_on self number) (start_number (is_idle (station_at self number).core.bus.bus_state) (length_fits halfbits.length)) 9 }
    {
        self.after(number, self.at(number).start_tx(halfbits))
    }

    #[tactic(auto, using(crate::proofs::Numbers::started_number))]
    pub fn start_answer(
        self,
        number: u8,
        halfbits: HalfBitBuffer,
    ) -> LineAnswered<Result<(), StartError>>
        ensures value { result ≡ answered_at self number (start_answer_of (station_at self number) halfbits) }
        ensures answer_value { line_start_number result.answer ≡ pick (is_on self number) (start_number (hears (station_at self number).core.bus.bus_state) (length_fits halfbits.length)) 9 }
    {
        self.after(number, self.at(number).start_answer(halfbits))
    }

    pub fn poll_tx_state(self, number: u8) -> LineAnswered<TxPollResult>
        ensures value { result ≡ answered_at self number (polled (station_at self number)) }
        ensures answer_value { line_number result.answer ≡ pick (is_on self number) 0 9 }
    {
        self.after(number, self.at(number).poll_tx_state())
    }

    pub fn take_idle_after_break(self, number: u8) -> LineAnswered<bool>
        ensures value { result ≡ answered_at self number (took_idle (station_at self number)) }
        ensures answer_value { line_number result.answer ≡ pick (is_on self number) 0 9 }
    {
        self.after(number, self.at(number).take_idle_after_break())
    }

    pub fn acknowledge_rx_frame(self, number: u8) -> LineAnswered<()>
        ensures value { result ≡ answered_at self number (done (acknowledged (station_at self number))) }
        ensures answer_value { line_number result.answer ≡ pick (is_on self number) 0 9 }
    {
        let station = self.at(number).acknowledge_rx_frame();
        self.after(
            number,
            Answered {
                station,
                answer: (),
            },
        )
    }

    pub fn take_completed_rx_event(self, number: u8) -> LineAnswered<Option<RxCompletedEvent>>
        ensures value { result ≡ answered_at self number (took_rx (station_at self number)) }
        ensures answer_value { line_number result.answer ≡ pick (is_on self number) 0 9 }
    {
        self.after(number, self.at(number).take_completed_rx_event())
    }

    // Puts the station that a call handed back in its place, and hands on its answer. If the number names no station of the line, nothing changes.
    #[tactic(auto, unfolding(crate::specs::Calls::answered_at, crate::specs::Refusals::line_number, laws::specs::Pick::pick))]
    fn after<T: Copy>(self, number: u8, called: Answered<T>) -> LineAnswered<T>
        ensures value { result ≡ answered_at self number called }
        ensures answer_value { line_number result.answer ≡ pick (is_on self number) 0 9 }
    {
        if !self.has(number) {
            return LineAnswered {
                line: self,
                answer: Err(LineError::NoStation),
            };
        }
        LineAnswered {
            line: self.with(number, called.station),
            answer: Ok(called.answer),
        }
    }
}
