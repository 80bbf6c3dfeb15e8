// The commands of the call protocol, each with its operands.
use crate::bytes::ByteString;
use crate::operands::Operands;
use event::RxCompletedEvent;
use fsm::CollisionPolicy;
use halfbits::HalfBitBuffer;
use lengths::BitLengths;
use search::BestPhaseSearch;
use window::{PhaseDecode, SampleWindow};

#[derive(Clone, Copy)]
pub(crate) enum Command {
    New,
    Policy(CollisionPolicy),
    Tick(bool),
    Ticks(ByteString, u16),
    StartTx(HalfBitBuffer),
    StartAnswer(HalfBitBuffer),
    Poll,
    TakeIdle,
    TakeRx,
    Ack,
    State,
    Weight(u8),
    Phase(u8, i8, SampleWindow),
    Search(BestPhaseSearch, SampleWindow),
    Steps(BestPhaseSearch, u8, SampleWindow),
    SearchNew(BestPhaseSearch),
    SearchStep(SampleWindow),
    SearchRun(SampleWindow),
    Sniff(RxCompletedEvent),
    Backward(RxCompletedEvent),
    LowRun(RxCompletedEvent),
    Held(RxCompletedEvent),
    Encode(u8, [u8; 3]),
    EncodeInto(u8, [u8; 3], ByteString),
    Better(BitLengths, PhaseDecode, PhaseDecode),
    Lengths(ByteString, u8),
    Settle(u16, u8),
    Gate(u8),
    Line(u8),
    LineTicks(u16),
    LineLevel,
    // The first number names a station of the line.
    LinePolicy(u8, CollisionPolicy),
    LineStartTx(u8, HalfBitBuffer),
    LineStartAnswer(u8, HalfBitBuffer),
    LinePoll(u8),
    LineTakeIdle(u8),
    LineTakeRx(u8),
    LineAck(u8),
    LineState(u8),
}

impl Command {
    // Reads a line. If its word is no command, or what stands behind the word isn't just the command's operands, there is none.
    pub(crate) fn read(line: &[u8]) -> Option<Command> {
        if lines::LINE_ROOM <= line.len() {
            return None;
        }
        let mut operands = Operands::of(line);
        let word = operands.field()?;
        let command = of_station(word, &mut operands)?;
        if !operands.at_end() {
            return None;
        }
        Some(command)
    }
}

// Each of the three functions reads the operands behind some words, and leaves the other words to the next. One match of forty arms with `?` was
// tried, and its check did not close.

fn of_station(word: &[u8], given: &mut Operands) -> Option<Command> {
    Some(match word {
        b"new" => Command::New,
        b"policy" => Command::Policy(given.policy()?),
        b"tick" => Command::Tick(given.level()?),
        b"ticks" => {
            let (levels, count) = given.levels()?;
            Command::Ticks(levels, count)
        }
        b"start_tx" => Command::StartTx(given.halfbits()?),
        b"start_answer" => Command::StartAnswer(given.halfbits()?),
        b"poll" => Command::Poll,
        b"take_idle" => Command::TakeIdle,
        b"take_rx" => Command::TakeRx,
        b"ack" => Command::Ack,
        b"state" => Command::State,
        _ => return of_decoders(word, given),
    })
}

fn of_decoders(word: &[u8], given: &mut Operands) -> Option<Command> {
    Some(match word {
        b"weight" => Command::Weight(given.hex_byte()?),
        b"phase" => Command::Phase(given.byte()?, given.signed()?, given.window()?),
        b"search" => Command::Search(given.search()?, given.window()?),
        b"steps" => Command::Steps(given.search()?, given.byte_up_to(8)?, given.window()?),
        b"bsnew" => Command::SearchNew(given.search()?),
        b"bsstep" => Command::SearchStep(given.window()?),
        b"bsrun" => Command::SearchRun(given.window()?),
        b"sniff" => Command::Sniff(given.event()?),
        b"sniffdec" => Command::Sniff(given.finished_event()?),
        b"backward" => Command::Backward(given.event()?),
        b"lowrun" => Command::LowRun(given.event()?),
        b"held" => Command::Held(given.event()?),
        b"encode" => Command::Encode(given.byte()?, given.three_hex_bytes()?),
        b"encodebuf" => Command::EncodeInto(
            given.byte()?,
            given.three_hex_bytes()?,
            given.byte_string()?,
        ),
        b"better" => Command::Better(given.lengths()?, given.place()?, given.place()?),
        b"lengths" => Command::Lengths(given.byte_string()?, given.byte()?),
        b"settle" => Command::Settle(given.short()?, given.byte()?),
        b"gate" => Command::Gate(given.byte()?),
        _ => return of_line(word, given),
    })
}

fn of_line(word: &[u8], given: &mut Operands) -> Option<Command> {
    Some(match word {
        b"line" => Command::Line(given.byte()?),
        b"lticks" => Command::LineTicks(given.ticks()?),
        b"llevel" => Command::LineLevel,
        b"lpolicy" => Command::LinePolicy(given.byte()?, given.policy()?),
        b"lstart_tx" => Command::LineStartTx(given.byte()?, given.halfbits()?),
        b"lstart_answer" => Command::LineStartAnswer(given.byte()?, given.halfbits()?),
        b"lpoll" => Command::LinePoll(given.byte()?),
        b"ltake_idle" => Command::LineTakeIdle(given.byte()?),
        b"ltake_rx" => Command::LineTakeRx(given.byte()?),
        b"lack" => Command::LineAck(given.byte()?),
        b"lstate" => Command::LineState(given.byte()?),
        _ => return None,
    })
}
