// The station's clock in a run: set from the machine's when the run starts, and moved by the seconds that pass, so that a label with `TD` shows today without anyone
// typing it. With `-noclock` it stays as opening or the store leaves it, until a TS.
//
// What date and time the machine's seconds are, and how a clock moves, is crate `wall_clock`. Seconds are those of the machine's clock that shows the date, which goes on
// while the machine sleeps: where somebody sets it forward they have passed, and where it is set back none have.
#![tactic(auto)]

use ground::{greatest, less};
use press_settings::Settings;
use press_store::Run;
use std::rt::Clock;

// 2 January 2000 in UTC, which no zone takes out of the station's years. A machine that shows less was never set; once it is, the station's clock comes right.
const EARLIEST: usize = 946771200;

// The machine's seconds since 1970.
fn machine_seconds(rt: &impl Clock) -> usize {
    match rt.since_1970() {
        Ok(said) => greatest(said.as_secs() as usize, EARLIEST),
        Err(_) => EARLIEST,
    }
}

// The clock set.
pub fn start(rt: &impl Clock, s: Settings, run: &mut Run) {
    if let Some(zone) = s.clock {
        let now = machine_seconds(rt);
        let before = run.session;
        run.session = before.clocked(wall_clock::today(now, zone));
        run.moment = now;
    }
}

// The clock moved.
pub fn tick(rt: &impl Clock, s: Settings, run: &mut Run) {
    if s.clock.is_some() {
        let now = machine_seconds(rt);
        let before = run.session;
        let clock = wall_clock::advance(before.clock, less(now, run.moment));
        run.session = before.clocked(clock);
        run.moment = now;
    }
}
