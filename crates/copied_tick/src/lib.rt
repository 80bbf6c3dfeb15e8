// Document 01's thin form of the tick for an interrupt host, which lends its station. The by-value tick does the work here. `in_place` has the form
// that changes the station where it lies, and both promise the same.
#![tactic(auto)]

ghost use Rattle.std.specs.Prelude.{◌≡◌};
ghost use Rattle.fsm.specs.Ticking.{ticked};

use fsm::{DaliBitbangPhy, Ticked};

// Station and level are those of the by-value tick.
pub fn tick(station: &mut DaliBitbangPhy, bus_is_high: bool) -> bool
    ensures station_after { station.new ≡ (ticked station.old bus_is_high).station }
    ensures value { result ≡ (ticked station.old bus_is_high).driven_high }
{
    let next = station.tick(bus_is_high);
    *station = next.station;
    next.driven_high
}

// For a caller that holds a station by value. It chooses one of the two forms, in place or copied, and gets the station back after the tick. There is
// no third form, so a flag says as much as a closure would. `timed_ticks`, which the clock calls, takes the form in place.
pub fn tick_lent(mut station: DaliBitbangPhy, bus_is_high: bool, in_place: bool) -> Ticked
    ensures { result ≡ ticked station bus_is_high }
{
    let driven_high = if in_place {
        in_place::tick(&mut station, bus_is_high)
    } else {
        tick(&mut station, bus_is_high)
    };
    Ticked {
        station,
        driven_high,
    }
}
