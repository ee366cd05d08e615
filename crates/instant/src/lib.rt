// A moment as seconds and nanoseconds, counted from where the clocks farthest east of UTC begin the year 0000.
#![tactic(auto)]

ghost use Rattle.std.specs.Prelude.{◌≡◌, ◌&&◌, ◌-◌, ◌<◌, ltb};
ghost use Rattle.days.specs.of_calendar.Calendar.{is_leap};
ghost use Rattle.days.specs.Dates.{days_before_month};
ghost use Rattle.instant.specs.Instant.{clock_of, instant_of};
ghost use Rattle.instant.specs.inside.Lent.{instant_from, instant_by};

use days::the_calendar::is_leap;
use days::{days_before_year, days_by};
pub use timestamp as the_timestamp;
use timestamp::Moment;

#[derive(Clone, Copy)]
pub struct Instant {
    pub seconds: u64,
    pub nanos: u32,
}

// Days of a common year before each month from 1 to 12; there is no month 0, and behind December is the whole year.
const MONTHS: [u16; 14] = [
    0, 0, 31, 59, 90, 120, 151, 181, 212, 243, 273, 304, 334, 365,
];

// The year 1 is a common one.
fn common_days(month: u8) -> u16
    ensures { result ≡ days_before_month 1 month }
{
    if 13 < month {
        return 365;
    }
    MONTHS[month as usize]
}

// Whether the leap day is before the month.
fn is_behind(year: u16, month: u8) -> bool
    ensures { result ≡ (ltb 2 month && is_leap year) }
{
    (2 < month) & is_leap(year)
}

fn days_before_month(year: u16, month: u8) -> u64
    ensures { result ≡ days_before_month year month }
{
    let days = common_days(month) as u64;
    if is_behind(year, month) {
        return days + 1;
    }
    days
}

pub fn less(a: u64, b: u64) -> u64
    ensures { result ≡ a - b }
{
    a.saturating_sub(b)
}

fn clock_of(m: Moment) -> u64
    ensures { result ≡ clock_of m }
{
    m.hour as u64 * 3600 + m.minute as u64 * 60 + m.second as u64
}

// The instant of a moment in a year with so many days before it.
fn instant_from(before: u64, m: Moment) -> Instant
    requires { before < 4400000000 }
    ensures { result ≡ instant_from before m }
{
    let day = before + (days_before_month(m.year, m.month) + less(m.day as u64, 1));
    Instant {
        seconds: day * 86400 + clock_of(m) + less(2878, m.offset as u64) * 60,
        nanos: m.nanos,
    }
}

// Every moment has one, also of a day that there is not.
pub fn instant_of(m: Moment) -> Instant
    ensures { result ≡ instant_of m }
{
    instant_from(days_before_year(m.year), m)
}

// The same by a table of days that is lent.
pub fn instant_by(days: &[u32], m: Moment) -> Instant
    ensures { result ≡ instant_by days.now m }
{
    instant_from(days_by(days, m.year), m)
}
