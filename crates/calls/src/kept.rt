// What the program keeps from line to line, and what each command makes of it.
use crate::bytes::ByteString;
use crate::commands::Command;
use crate::reply::{Refusal, Reply};
use bench_line::{BenchLine, LineAnswered, LineError};
use fsm::{Answered, DaliBitbangPhy};
use halfbits::{EncodeError, HalfBitBuffer};
use lengths::BitLengths;
use search::BestPhaseSearch;

#[derive(Clone, Copy)]
pub(crate) struct Kept {
    search: BestPhaseSearch,
    station: DaliBitbangPhy,
    bench: BenchLine,
}

impl Kept {
    // Before the first `bsnew` the search prefers no length, and before the first `line` the bench line has one station.
    #[tactic(auto, unfolding(bench_line::specs::Calls::made_line, bench_line::specs::Refusals::is_count, laws::specs::Pick::pick))]
    pub(crate) fn new() -> Kept {
        Kept {
            search: BestPhaseSearch::new(BitLengths::of(&[])),
            station: DaliBitbangPhy::new(),
            bench: BenchLine::new(1).unwrap(),
        }
    }

    // A bad line changes nothing.
    pub(crate) fn answer(&mut self, line: &[u8]) -> Reply {
        match Command::read(line) {
            Some(command) => self.run(command).unwrap_or_else(Reply::Refused),
            None => Reply::Bad,
        }
    }

    fn run(&mut self, command: Command) -> Result<Reply, Refusal> {
        Ok(match command {
            Command::New => self.put(DaliBitbangPhy::new()),
            Command::Policy(policy) => self.put(self.station.set_collision_policy(policy)),
            Command::Tick(high) => self.tick(high),
            Command::Ticks(levels, count) => self.ticks(levels, count),
            Command::StartTx(halfbits) => done(self.keep(self.station.start_tx(halfbits))?),
            Command::StartAnswer(halfbits) => done(self.keep(self.station.start_answer(halfbits))?),
            Command::Poll => Reply::Poll(self.keep(self.station.poll_tx_state())),
            Command::TakeIdle => Reply::Flag(self.keep(self.station.take_idle_after_break())),
            Command::TakeRx => Reply::Event(self.keep(self.station.take_completed_rx_event())),
            Command::Ack => self.put(self.station.acknowledge_rx_frame()),
            Command::State => Reply::State(self.station),
            Command::Weight(sample) => Reply::Number(weight::sample_weight(sample) as u16),
            Command::Phase(most, phase, window) => Reply::Phase(window.decode_phase(most, phase)),
            Command::Search(search, window) => Reply::Run(search.run(window)),
            Command::Steps(search, count, window) => Reply::Steps(search, count, window),
            Command::SearchNew(search) => {
                self.search = search;
                Reply::Ok
            }
            Command::SearchStep(window) => {
                let stepped = self.search.step(window);
                self.search = stepped.search;
                Reply::Step(stepped.answer)
            }
            Command::SearchRun(window) => Reply::Run(self.search.run(window)),
            Command::Sniff(event) => Reply::Sniffed(rx_decode::decode_sniffed_with_phase(event)),
            Command::Backward(event) => Reply::Backward(rx_decode::decode_backward_byte(event)),
            Command::LowRun(event) => Reply::Number(rx_decode::longest_dominant_run_ticks(event)),
            Command::Held(event) => Reply::Flag(rx_decode::is_line_held(event)),
            Command::Encode(bits, bytes) => Reply::Encoded(encode(bits, bytes)?),
            Command::EncodeInto(bits, bytes, buffer) => encode_into(bits, bytes, buffer),
            Command::Better(preferred, candidate, current) => {
                Reply::Flag(search::is_better_decode(candidate, current, preferred))
            }
            Command::Lengths(lengths, length) => {
                Reply::Flag(BitLengths::of(lengths.as_slice()).contains(length))
            }
            Command::Settle(silence, lead) => Reply::Number(fsm::settle_ticks_on_wire(
                silence, lead,
            )),
            Command::Gate(release) => Reply::Number(fsm::restart_gate_for(release) as u16),
            Command::Line(count) => {
                self.bench = BenchLine::new(count)?;
                Reply::Ok
            }
            Command::LineTicks(count) => self.line_ticks(count),
            Command::LineLevel => Reply::Level(self.bench.level()),
            Command::LinePolicy(number, policy) => {
                done(self.keep_line(self.bench.set_collision_policy(number, policy))?)
            }
            Command::LineStartTx(number, halfbits) => {
                done(self.keep_line(self.bench.start_tx(number, halfbits))??)
            }
            Command::LineStartAnswer(number, halfbits) => {
                done(self.keep_line(self.bench.start_answer(number, halfbits))??)
            }
            Command::LinePoll(number) => {
                Reply::Poll(self.keep_line(self.bench.poll_tx_state(number))?)
            }
            Command::LineTakeIdle(number) => {
                Reply::Flag(self.keep_line(self.bench.take_idle_after_break(number))?)
            }
            Command::LineTakeRx(number) => {
                Reply::Event(self.keep_line(self.bench.take_completed_rx_event(number))?)
            }
            Command::LineAck(number) => done(self.keep_line(
                self.bench.acknowledge_rx_frame(number),
            )?),
            Command::LineState(number) => Reply::State(self.bench.station(number)?),
        })
    }

    fn put(&mut self, station: DaliBitbangPhy) -> Reply {
        self.station = station;
        Reply::Ok
    }

    // Keeps the station or the line that a call handed back, and hands on what it answered. A refused call hands back what it was given.

    fn keep<T>(&mut self, answered: Answered<T>) -> T {
        self.station = answered.station;
        answered.answer
    }

    fn keep_line<T>(&mut self, answered: LineAnswered<T>) -> Result<T, LineError> {
        self.bench = answered.line;
        answered.answer
    }

    // The tick has three forms: by value, in place, which firmware calls, and copied out and back. A `tick` line takes the one in place, and a
    // `ticks` line takes all three by turns. Their answers are the same, so the comparison with the Rust tries each of them.
    fn tick(&mut self, high: bool) -> Reply {
        Reply::Driven(in_place::tick(&mut self.station, high))
    }

    fn ticks(&mut self, levels: ByteString, count: u16) -> Reply {
        let station = &mut self.station;
        Reply::DrivenWave(ByteString::of_levels(count, |i| {
            let high = levels.level(i);
            match i % 3 {
                0 => {
                    let ticked = (*station).tick(high);
                    *station = ticked.station;
                    ticked.driven_high
                }
                1 => in_place::tick(station, high),
                _ => copied_tick::tick(station, high),
            }
        }))
    }

    fn line_ticks(&mut self, count: u16) -> Reply {
        let bench = &mut self.bench;
        Reply::LevelWave(ByteString::of_levels(count, |_| {
            *bench = (*bench).tick();
            (*bench).level()
        }))
    }
}

// The reply to a call that answers nothing but that it was done.
fn done(_: ()) -> Reply {
    Reply::Ok
}

// The three bytes are told apart here. In the arm that would lend a part of a variant, which the check does not cover.
fn encode(bits: u8, [first, second, third]: [u8; 3]) -> Result<HalfBitBuffer, EncodeError> {
    HalfBitBuffer::encode(bits, first, second, third)
}

// The lent buffer has just the bytes of HEX.
fn encode_into(bits: u8, [first, second, third]: [u8; 3], mut buffer: ByteString) -> Reply {
    let answer = halfbits::encode_into(bits, first, second, third, buffer.as_mut_slice());
    Reply::EncodedInto(answer, buffer)
}
