// Two stations on one wire: one sends sixteen bits, the other hears and reads them. The README shows `main`.
#![tactic(auto)]

use fsm::{Answered, DaliBitbangPhy, StartError, TxPollResult};
use halfbits::HalfBitBuffer;
use rx_decode::SniffedFrame;

// A text that can't be written is passed over.
fn say(rt: &impl Print, text: &str) {
    let _ = println!(rt; "{text}");
}

// Says how a start was answered. A station that refuses comes back as it was.
fn told(rt: &impl Print, started: Answered<Result<(), StartError>>) -> DaliBitbangPhy {
    let answer = match started.answer {
        Ok(()) => "started",
        Err(StartError::Busy) => "refused, 7: the station is not Idle",
        Err(StartError::BadLength) => "refused, 8: no half-bits, or more than 54",
    };
    say(rt, answer);
    started.station
}

fn say_result(rt: &impl Print, res: TxPollResult) {
    let answer = match res {
        TxPollResult::Yielded => "given up: another station was first",
        TxPollResult::Collision => "clashed",
        TxPollResult::Transmitting => "still sending",
        TxPollResult::Ok => "sent",
    };
    say(rt, answer);
}

fn say_frame(rt: &impl Print, frame: SniffedFrame) {
    let SniffedFrame::Forward16(word) = frame else {
        return say(rt, "heard no frame of 16 bits");
    };
    let _ = println!(rt; "heard {word:04x}");
}

#[tactic(auto, unfolding(halfbits::specs::Encoding::encoded_of, halfbits::specs::Encoding::is_bit_count, laws::specs::Pick::pick))]
fn main(rt: HostRuntime) {
    let mut sender = DaliBitbangPhy::new();
    let mut listener = DaliBitbangPhy::new();
    let frame = HalfBitBuffer::encode(16, 0xa5, 0x00, 0).unwrap();
    sender = told(&rt, sender.start_tx(frame));
    // The second start is refused, because the first frame is not sent yet.
    sender = told(&rt, sender.start_tx(frame));
    let mut line_is_high = true;
    for _ in 0..230 {
        let sent = sender.tick(line_is_high);
        let heard = listener.tick(line_is_high);
        sender = sent.station;
        listener = heard.station;
        line_is_high = sent.driven_high && heard.driven_high;
    }
    say_result(&rt, sender.poll_tx_state().answer);
    if let Some(event) = listener.take_completed_rx_event().answer {
        say_frame(&rt, rx_decode::decode_sniffed(event));
    }
}
