// The clock: TS.
//
// Paper 02, §10: "Add `TS` with month, day, year 0..99 (read as 2000 to 2099), hour, minute, second in the manual's limits, the day checked against month and leap
// year". The limits and the day are checked where the line is read (7), so nothing else refuses it. `run_clock` promises one equation with `clock_by`
// (specs/Clocks.antt), for any session. That a clock which was read is a date and a time is proved in crate `keeps_sound`.
#![tactic(auto)]

ghost use Rattle.std.specs.Prelude.{◌≡◌, []};
ghost use Rattle.lent.specs.Lent.{world};
ghost use Rattle.results.specs.Result.{ran};
ghost use Rattle.clock_commands.specs.Clocks.{eight_bits, clock_said, clock_by};

use calendar::Clock;
use grammar::SetClock;
use ground::least;
use results::{Done, taken};
use session::Session;

// A number as the clock keeps it.
fn eight_bits(n: usize) -> u8
    ensures { result ≡ eight_bits n }
{
    least(n, 255) as u8
}

fn clock_said(c: SetClock) -> Clock
    ensures { result ≡ clock_said c }
{
    Clock {
        year: eight_bits(c.year),
        month: eight_bits(c.month),
        day: eight_bits(c.day),
        hour: eight_bits(c.hour),
        minute: eight_bits(c.minute),
        second: eight_bits(c.second),
    }
}

// The clock is set.
pub fn run_clock(session: Session, command: SetClock) -> Done
    ensures { ran result (world [] [] [] [] []) [] ≡ clock_by (world [] [] [] [] []) session command }
{
    taken(session.clocked(clock_said(command)))
}
