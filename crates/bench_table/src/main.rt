// The rows of document 01, "Bench table", that are to be run. The program prints each with what the proved calls return, and the gate compares that
// with the file stdout. All rows are proved too, these included (specs/Table.antt).
#![tactic(auto)]

use bench_line::BenchLine;
use fsm::{BusState, DaliBitbangPhy};
use halfbits::HalfBitBuffer;

// `until` looks no further than this tick.
const LAST_TICK: u8 = 40;

// A line, and the number of ticks since the start calls.
#[derive(Clone, Copy)]
struct LineAt {
    line: BenchLine,
    tick: u8,
}

// What can't be written is passed over, here as everywhere below.
fn say_level(rt: &impl Print, high: bool) {
    let _ = print!(rt; "{}", if high { "high" } else { "low" });
}

// ---- 600 low ticks and sixteen high

fn ticked(mut station: DaliBitbangPhy, level: bool, ticks: u16) -> DaliBitbangPhy {
    for _ in 0..ticks {
        station = station.tick(level).station;
    }
    station
}

fn say_long_low(rt: &impl Print) {
    let low = ticked(DaliBitbangPhy::new(), false, 600);
    let high = ticked(low, true, 16);
    let _ = print!(rt; "600 low ticks and 16 high: ");
    let Some(event) = high.take_completed_rx_event().answer else {
        let _ = println!(rt; "no capture");
        return;
    };
    let _ = print!(rt; "count {}, samples ", event.sample_count);
    for sample in &event.samples {
        let _ = print!(rt; "{sample:02x}");
    }
    let _ = println!(rt; "");
}

// ---- 16 bits of 0000 against 8000

fn is_breaking(line: BenchLine, number: u8) -> bool {
    matches!(line.station(number), Ok(station) if station.bus_state() == BusState::CollisionTx)
}

// Ticks the line until the station is in its break, or until it no longer is, as `breaking` says.
fn until(at: LineAt, number: u8, breaking: bool) -> LineAt {
    let mut line = at.line;
    for tick in at.tick..LAST_TICK {
        if is_breaking(line, number) == breaking {
            return LineAt { line, tick };
        }
        line = line.tick();
    }
    LineAt {
        line,
        tick: LAST_TICK,
    }
}

// A station that sampled high found the line idle.
fn say_break(rt: &impl Print, line: BenchLine, number: u8) {
    let clash = until(LineAt { line, tick: 0 }, number, true);
    let sample = until(clash, number, false);
    let _ = print!(rt;
        "station {number} sees the clash at tick {} and samples ",
        clash.tick
    );
    match sample.line.take_idle_after_break(number).answer {
        Ok(high) => say_level(rt, high),
        Err(_) => {
            let _ = print!(rt; "nothing");
        }
    }
    let _ = print!(rt; " at {}", sample.tick);
}

#[tactic(auto, unfolding(bench_line::specs::Calls::made_line, bench_line::specs::Refusals::is_count, halfbits::specs::Encoding::encoded_of, halfbits::specs::Encoding::is_bit_count, laws::specs::Pick::pick))]
fn both_started() -> BenchLine {
    let zeros = HalfBitBuffer::encode(16, 0x00, 0x00, 0).unwrap();
    let eighty = HalfBitBuffer::encode(16, 0x80, 0x00, 0).unwrap();
    let line = BenchLine::new(2).unwrap();
    line.start_tx(0, zeros).line.start_tx(1, eighty).line
}

fn say_clash(rt: &impl Print) {
    let line = both_started();
    let _ = print!(rt; "16 bits of 0000 against 8000: ");
    say_break(rt, line, 0);
    let _ = print!(rt; "; ");
    say_break(rt, line, 1);
    let _ = println!(rt; "");
}

fn main(rt: HostRuntime) {
    say_long_low(&rt);
    say_clash(&rt);
}
