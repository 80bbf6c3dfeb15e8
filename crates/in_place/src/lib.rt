// The tick that firmware calls from an interrupt. It is lent a station and changes it where it lies.
#![tactic(auto)]

ghost use Rattle.std.specs.Prelude.{◌≡◌};
ghost use Rattle.fsm.specs.Ticking.{ticked};

use fsm::{BusState, DaliBitbangPhy, RX_IDLE_LINE_HIGH_TICKS};

// Station and level are those of the by-value tick. Each state reads the core for itself, and Tx reads it again unless a half-bit goes on: the
// compiled tick then loads only what its way needs, while one read for all ways would load nearly all of the core. The ways that most ticks take
// store only the group that they change. The end of a capture stores a whole station, since the fields of the last event are private to `fsm`. The
// compiled tick copies no station even there.
pub fn tick(station: &mut DaliBitbangPhy, bus_is_high: bool) -> bool
    ensures station_after { station.new ≡ (ticked station.old bus_is_high).station }
    ensures value { result ≡ (ticked station.old bus_is_high).driven_high }
{
    let counted = station.core.count_runs(bus_is_high);
    station.core.runs = counted.runs;
    match counted.bus.bus_state {
        BusState::Idle => {
            let core = station.core;
            if bus_is_high {
                let next = core.count_idle();
                station.core.bus = next.bus;
                return next.bus.driven_high;
            }
            let next = core.tick_idle(false);
            station.core = next;
            next.bus.driven_high
        }
        BusState::Rx => {
            let core = station.core;
            if core.rx.rx_bit_cnt == 7 {
                station.rx_data = fsm::fill(station.rx_data, core.rx, bus_is_high);
            }
            let rx = fsm::sample(core.rx, bus_is_high);
            if rx.rx_idle < RX_IDLE_LINE_HIGH_TICKS {
                station.core.rx = rx;
                return core.bus.driven_high;
            }
            let next = fsm::end_rx(core, rx);
            let samples = fsm::with_end(station.rx_data, rx);
            *station = station.finish_rx_and_notify(next, samples);
            next.bus.driven_high
        }
        BusState::Tx => {
            let tx_hb = station.tx_hb;
            let holding = station.core;
            if holding.holds(tx_hb, bus_is_high) {
                let next = holding.hold_half_bit();
                station.core.tx = next.tx;
                return next.bus.driven_high;
            }
            let core = station.core;
            let next = core.tick_tx(tx_hb, bus_is_high);
            station.core = next;
            next.bus.driven_high
        }
        BusState::CollisionTx => {
            let core = station.core;
            let next = core.tick_collision_tx(bus_is_high);
            station.core = next;
            next.bus.driven_high
        }
    }
}
