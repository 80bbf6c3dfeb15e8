// The reply to a command, and how it is written.
use crate::bytes::{ByteString, Digits, Hex};
use bench_line::LineError;
use event::RxCompletedEvent;
use fsm::{BusState, DaliBitbangPhy, RxState, StartError, TxPollResult};
use halfbits::{EncodeError, HalfBitBuffer};
use rx_decode::{SniffedDecode, SniffedFrame};
use search::{BestPhaseSearch, PhaseSearch, SearchAnswer};
use std::fmt;
use window::{PhaseDecode, SampleWindow};

// The number of a refusal.
#[derive(Clone, Copy)]
pub(crate) struct Refusal(u8);

impl From<EncodeError> for Refusal {
    fn from(error: EncodeError) -> Refusal {
        Refusal(error as u8)
    }
}

impl From<StartError> for Refusal {
    fn from(error: StartError) -> Refusal {
        Refusal(error as u8)
    }
}

impl From<LineError> for Refusal {
    fn from(error: LineError) -> Refusal {
        Refusal(error as u8)
    }
}

#[derive(Clone, Copy)]
pub(crate) enum Reply {
    Bad,
    Ok,
    Refused(Refusal),
    Number(u16),
    Flag(bool),
    // a driven level, the level of the line, and a wave of each
    Driven(bool),
    Level(bool),
    DrivenWave(ByteString),
    LevelWave(ByteString),
    Poll(TxPollResult),
    Event(Option<RxCompletedEvent>),
    State(DaliBitbangPhy),
    Phase(PhaseDecode),
    Run(SearchAnswer),
    Step(PhaseSearch),
    // a search before its steps, how many it takes, and on which window
    Steps(BestPhaseSearch, u8, SampleWindow),
    Sniffed(SniffedDecode),
    Backward(Option<u8>),
    Encoded(HalfBitBuffer),
    // the length or the refusal, and the lent buffer
    EncodedInto(Result<u8, EncodeError>, ByteString),
}

// A value of the crates below, as the protocol writes it.
#[derive(Clone, Copy)]
struct Shown<T>(T);

impl fmt::Display for Reply {
    fn fmt<W: fmt::Write>(&self, f: &mut fmt::Formatter<W>) -> fmt::Result {
        match *self {
            Reply::Bad => write!(f, "?"),
            Reply::Ok => write!(f, "ok"),
            Reply::Refused(refusal) => write!(f, "{refusal}"),
            Reply::Number(number) => write!(f, "{number}"),
            Reply::Flag(flag) => write!(f, "{}", flag as u8),
            Reply::Driven(high) => write!(f, "d {}", high as u8),
            Reply::Level(high) => write!(f, "l {}", high as u8),
            Reply::DrivenWave(levels) => write!(f, "d {levels}"),
            Reply::LevelWave(levels) => write!(f, "l {levels}"),
            Reply::Poll(result) => write!(f, "{}", Shown(result)),
            Reply::Event(None) => write!(f, "none"),
            Reply::Event(Some(event)) => write!(f, "event {}", Shown(event)),
            Reply::State(station) => write!(f, "state {}", Shown(station)),
            Reply::Phase(decode) => write!(f, "phase {}", Shown(decode)),
            Reply::Run(run) => write!(f, "{}", Shown(run)),
            Reply::Step(
                PhaseSearch::Done(
                    SearchAnswer {
                        found: Some(decode),
                        ..
                    },
                ),
            ) => write!(f, "found {}", Shown(decode)),
            Reply::Step(step) => write!(f, "{}", Shown(step)),
            Reply::Steps(search, count, window) => steps(f, search, count, window),
            Reply::Sniffed(decode) => write!(f, "{}", Shown(decode)),
            Reply::Backward(Some(byte)) => write!(f, "byte {}", Hex(&[byte])),
            Reply::Backward(None) => write!(f, "none"),
            Reply::Encoded(buffer) => write!(f, "{} {}", buffer.length, Hex(&buffer.data)),
            Reply::EncodedInto(Ok(length), buffer) => write!(f, "{length} {buffer}"),
            Reply::EncodedInto(Err(error), buffer) => write!(
                f,
                "{} {buffer}",
                Refusal::from(error)
            ),
        }
    }
}

impl fmt::Display for Refusal {
    fn fmt<W: fmt::Write>(&self, f: &mut fmt::Formatter<W>) -> fmt::Result {
        write!(f, "refused {}", self.0)
    }
}

impl fmt::Display for Shown<TxPollResult> {
    fn fmt<W: fmt::Write>(&self, f: &mut fmt::Formatter<W>) -> fmt::Result {
        match self.0 {
            TxPollResult::Ok => write!(f, "ok"),
            TxPollResult::Collision => write!(f, "collision"),
            TxPollResult::Transmitting => write!(f, "transmitting"),
            TxPollResult::Yielded => write!(f, "yielded"),
        }
    }
}

impl fmt::Display for Shown<BusState> {
    fn fmt<W: fmt::Write>(&self, f: &mut fmt::Formatter<W>) -> fmt::Result {
        match self.0 {
            BusState::Idle => write!(f, "idle"),
            BusState::Rx => write!(f, "rx"),
            BusState::Tx => write!(f, "tx"),
            BusState::CollisionTx => write!(f, "collision"),
        }
    }
}

impl fmt::Display for Shown<RxState> {
    fn fmt<W: fmt::Write>(&self, f: &mut fmt::Formatter<W>) -> fmt::Result {
        match self.0 {
            RxState::Empty => write!(f, "empty"),
            RxState::Receiving => write!(f, "receiving"),
            RxState::Completed => write!(f, "completed"),
        }
    }
}

// `COUNT PRE HEX128`
impl fmt::Display for Shown<RxCompletedEvent> {
    fn fmt<W: fmt::Write>(&self, f: &mut fmt::Formatter<W>) -> fmt::Result {
        let event = self.0;
        write!(
            f,
            "{} {} {}",
            event.sample_count,
            event.pre_idle_ticks,
            Hex(&event.samples)
        )
    }
}

// `BUS RX DEB IDLE LOW TXPRE RXPRE BUSY DRIVEN COUNT PRE HEX128`
impl fmt::Display for Shown<DaliBitbangPhy> {
    fn fmt<W: fmt::Write>(&self, f: &mut fmt::Formatter<W>) -> fmt::Result {
        let station = self.0;
        write!(
            f,
            "{} {}",
            Shown(station.bus_state()),
            Shown(station.rx_state())
        )?;
        write!(
            f,
            " {} {}",
            station.line_debouncing() as u8,
            station.idle_tick_count()
        )?;
        write!(
            f,
            " {} {}",
            station.bus_low_run_ticks(),
            station.tx_pre_idle_ticks()
        )?;
        write!(
            f,
            " {} {}",
            station.rx_pre_idle_ticks(),
            station.tx_busy() as u8
        )?;
        write!(
            f,
            " {} {}",
            station.driven_high() as u8,
            Shown(station.last_rx_event())
        )
    }
}

// `LEN PHASE SCORE DATA16`
impl fmt::Display for Shown<PhaseDecode> {
    fn fmt<W: fmt::Write>(&self, f: &mut fmt::Formatter<W>) -> fmt::Result {
        let decode = self.0;
        write!(
            f,
            "{} {} {} {}",
            decode.bit_len,
            decode.phase_ticks,
            decode.score,
            Digits(decode.data)
        )
    }
}

// `found STEPS LEN PHASE SCORE DATA16` or `nothing STEPS`
impl fmt::Display for Shown<SearchAnswer> {
    fn fmt<W: fmt::Write>(&self, f: &mut fmt::Formatter<W>) -> fmt::Result {
        let steps = self.0.steps;
        match self.0.found {
            Some(decode) => write!(f, "found {steps} {}", Shown(decode)),
            None => write!(f, "nothing {steps}"),
        }
    }
}

// `searching`, `nothing` or `LEN PHASE SCORE DATA16`
impl fmt::Display for Shown<PhaseSearch> {
    fn fmt<W: fmt::Write>(&self, f: &mut fmt::Formatter<W>) -> fmt::Result {
        match self.0 {
            PhaseSearch::Searching => write!(f, "searching"),
            PhaseSearch::Done(done) => match done.found {
                Some(decode) => write!(f, "{}", Shown(decode)),
                None => write!(f, "nothing"),
            },
        }
    }
}

// `B8 hh`, `F16 hhhh`, `F24 hhhhhh`, `LEN n` or `FAIL -`, and ` PHASE SCORE`
impl fmt::Display for Shown<SniffedDecode> {
    fn fmt<W: fmt::Write>(&self, f: &mut fmt::Formatter<W>) -> fmt::Result {
        let decode = self.0;
        match decode.frame {
            SniffedFrame::Backward8(byte) => write!(f, "B8 {}", Hex(&[byte]))?,
            SniffedFrame::Forward16(bits) => write!(f, "F16 {}", Hex(&bits.to_be_bytes()))?,
            SniffedFrame::Forward24(first, second, third) => {
                write!(f, "F24 {}", Hex(&[first, second, third]))?
            }
            SniffedFrame::UnsupportedLength(length) => write!(f, "LEN {length}")?,
            SniffedFrame::DecodeFailed => write!(f, "FAIL -")?,
        }
        write!(f, " {} {}", decode.phase_ticks, decode.score)
    }
}

// `steps K`, and for each step ` | ` and what it answers
fn steps<W: fmt::Write>(
    f: &mut fmt::Formatter<W>,
    mut search: BestPhaseSearch,
    count: u8,
    window: SampleWindow,
) -> fmt::Result {
    write!(f, "steps {count}")?;
    for _ in 0..count {
        let stepped = search.step(window);
        write!(f, " | {}", Shown(stepped.answer))?;
        search = stepped.search;
    }
    Ok(())
}
