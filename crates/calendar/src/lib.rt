// The station's clock: which dates and times of day there are, and the seconds that pass.
//
// Paper 02, §10, gives the station a clock from 2000 to 2099, set by TS and moved by a call that gives the seconds passed. A definition lets the seconds pass one
// after the other, over midnight, the ends of months and leap days, to the last second of 2099, where the clock stands (specs/Clock.antt); `move_clock` moves it at
// once and is proved equal to that. A clock is six numbers that anybody may have written, and `is_legal` says whether they are a date and a time of day.
// How a clock is shown in data stands in crate `stamps`.
#![tactic(auto)]

ghost use Rattle.std.specs.Prelude.{◌≡◌, true, ◌≤◌};
ghost use Rattle.kinds.specs.Bytes.{between};
ghost use Rattle.calendar.specs.Clock.{leap, thirty, days_in, legal_date, legal_time, legal_clock, fresh, last, last_day, next_day, after, moved};
ghost use Rattle.calendar.specs.Day.{time_of, at_time};

use ground::{both, wide};
use kinds::is_between;

// The session's clock: year 0 to 99, read as 2000 to 2099, month, day, hour, minute and second.
#[derive(Clone, Copy)]
pub struct Clock {
    pub year: u8,
    pub month: u8,
    pub day: u8,
    pub hour: u8,
    pub minute: u8,
    pub second: u8,
}

// Why the clock doesn't move: [3] it is no date and time; [7] more than a day.
#[derive(Clone, Copy)]
pub enum Unmoved {
    NoClock,
    TooLong,
}

// The remainders of 2000 + year are those of the year.
fn is_leap(year: usize) -> bool
    ensures { result ≡ leap year }
{
    if year % 100 == 0 {
        return year % 400 == 0;
    }
    year % 4 == 0
}

fn is_thirty(month: usize) -> bool
    ensures { result ≡ thirty month }
{
    match month {
        4 => true,
        6 => true,
        9 => true,
        11 => true,
        _ => false,
    }
}

// The days of a month.
pub fn days_in(year: usize, month: usize) -> usize
    ensures { result ≡ days_in year month }
{
    if month == 2 {
        if is_leap(year) {
            return 29;
        }
        return 28;
    }
    if is_thirty(month) {
        return 30;
    }
    31
}

impl Clock {
    // 1 January 2000 at midnight.
    pub fn fresh() -> Clock
        ensures { result ≡ fresh }
    {
        Clock {
            year: 0,
            month: 1,
            day: 1,
            hour: 0,
            minute: 0,
            second: 0,
        }
    }

    // The last second of 2099.
    fn last() -> Clock
        ensures { result ≡ last }
    {
        Clock {
            year: 99,
            month: 12,
            day: 31,
            hour: 23,
            minute: 59,
            second: 59,
        }
    }

    // The days of the clock's month.
    fn days(self) -> usize
        ensures { result ≡ days_in self.year self.month }
    {
        days_in(wide(self.year), wide(self.month))
    }

    // Whether the month has the day.
    fn has_day(self) -> bool
        ensures { result ≡ between 1 (days_in self.year self.month) self.day }
    {
        if self.day < 1 {
            return false;
        }
        wide(self.day) <= self.days()
    }

    fn legal_date(self) -> bool
        ensures { result ≡ legal_date self }
    {
        let year = is_between(0, 99, self.year);
        let month = is_between(1, 12, self.month);
        both(year, both(month, self.has_day()))
    }

    fn legal_time(self) -> bool
        ensures { result ≡ legal_time self }
    {
        let hour = is_between(0, 23, self.hour);
        let minute = is_between(0, 59, self.minute);
        let second = is_between(0, 59, self.second);
        both(hour, both(minute, second))
    }

    // Whether the numbers are a date and a time of day.
    pub fn is_legal(self) -> bool
        ensures { result ≡ legal_clock self }
    {
        both(self.legal_date(), self.legal_time())
    }

    fn is_last_day(self) -> bool
        ensures { result ≡ last_day self }
    {
        if self.year != 99 {
            return false;
        }
        if self.month != 12 {
            return false;
        }
        self.day == 31
    }

    // The next day's midnight. Asked for by `after` alone, of a legal clock: so the year can be one more.
    fn next_day(self) -> Clock
        requires { self.year ≤ 99 }
        ensures { result ≡ next_day self }
    {
        if wide(self.day) < self.days() {
            return Clock {
                year: self.year,
                month: self.month,
                day: self.day + 1,
                hour: 0,
                minute: 0,
                second: 0,
            };
        }
        if self.month < 12 {
            return Clock {
                year: self.year,
                month: self.month + 1,
                day: 1,
                hour: 0,
                minute: 0,
                second: 0,
            };
        }
        Clock {
            year: self.year + 1,
            month: 1,
            day: 1,
            hour: 0,
            minute: 0,
            second: 0,
        }
    }

    // The seconds since midnight.
    fn time_of(self) -> u64
        ensures { result ≡ time_of self }
    {
        u64::from(self.hour) * 3600 + u64::from(self.minute) * 60 + u64::from(self.second)
    }

    // The same day, t seconds after midnight.
    fn at_time(self, t: u64) -> Clock
        ensures { result ≡ at_time self t }
    {
        let hour = (t / 60 / 60 % 24) as u8;
        let minute = (t / 60 % 60) as u8;
        let second = (t % 60) as u8;
        Clock {
            year: self.year,
            month: self.month,
            day: self.day,
            hour,
            minute,
            second,
        }
    }

    // The clock after at most a day: midnight passes once at most. Asked for by `move_clock` alone, which asks both first.
    fn after(self, seconds: u64) -> Clock
        requires { (legal_clock self ≡ true) × (seconds ≤ 86400) }
        ensures { result ≡ after self seconds }
    {
        let t = self.time_of() + seconds;
        if t < 86400 {
            return self.at_time(t);
        }
        if self.is_last_day() {
            return Clock::last();
        }
        self.next_day().at_time(t - 86400)
    }
}

// The clock call: the clock after the seconds passed, 0 to 86,400.
pub fn move_clock(c: Clock, seconds: u64) -> Result<Clock, Unmoved>
    ensures { result ≡ moved c seconds }
{
    if !c.is_legal() {
        return Err(Unmoved::NoClock);
    }
    if seconds > 86400 {
        return Err(Unmoved::TooLong);
    }
    Ok(c.after(seconds))
}
