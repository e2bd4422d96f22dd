// The machine's clock as the station's.
//
// A label with `TD` shows today without anyone typing it: `press` sets the station's clock from the machine's when it starts and moves it by the seconds that pass
// (paper 02, §10). A machine counts seconds from 1970 in UTC; `today` is the date and time of such a number in a zone, and `advance` a clock that any number of seconds
// moved, a day at a time, as the clock call moves it. Both promise one equation with specs/Wall.antt. Asking the machine is left to the program.
#![tactic(auto)]

ghost use Rattle.std.specs.Prelude.{◌≡◌, ◌≤◌};
ghost use Rattle.calendar.specs.Clock.{moved};
ghost use Rattle.wall_clock.specs.Wall.{since_start, or_same, advanced, today};

use calendar::{Clock, move_clock};
use ground::{least, less};
use numbers::NOUGHT;

// From 1 January 1970 to 1 January 2000.
const THIRTY_YEARS: usize = 946684800;

// A hundred years, within which any clock comes to its end.
const HUNDRED_YEARS: usize = 3155760000;

// The seconds of a day, the most that the clock call takes.
const DAY: usize = 86400;

// No machine is asked after so many seconds, and no zone is so far off.
const MOST_SECONDS: usize = 8000000000;

const MOST_ZONE: usize = 2 * NOUGHT;

// The seconds since 1 January 2000 in a zone. Its minutes count from `NOUGHT` as a number with a sign does.
fn since_start(seconds: usize, zone: usize) -> usize
    ensures { result ≡ since_start seconds zone }
{
    let local = least(seconds, MOST_SECONDS) + 60 * least(zone, MOST_ZONE);
    less(local, THIRTY_YEARS + 60 * NOUGHT)
}

// A clock that moved, or the same where the call would refuse it.
fn move_on(c: Clock, seconds: usize) -> Clock
    ensures { result ≡ or_same c (moved c seconds) }
{
    move_clock(c, seconds as u64).unwrap_or(c)
}

// A clock after any number of seconds.
pub fn advance(c: Clock, seconds: usize) -> Clock
    ensures { result ≡ advanced c seconds }
{
    let mut clock = c;
    let mut left = least(seconds, HUNDRED_YEARS);
    // A while: the last step is what is left of a day, which a for over days would need apart.
    while 0 < left {
        let step = least(left, DAY);
        clock = move_on(clock, step);
        left -= step;
    }
    clock
}

// The date and the time of a machine's seconds in a zone.
pub fn today(seconds: usize, zone: usize) -> Clock
    ensures { result ≡ today seconds zone }
{
    advance(Clock::fresh(), since_start(seconds, zone))
}
