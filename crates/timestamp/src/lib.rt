// Timestamps by RFC 3339, read from their text.
#![tactic(auto)]

pub use names as the_names;
pub use names::{the_area, the_refusal};

mod parts;

ghost use Rattle.std.specs.Prelude.{◌≡◌};
ghost use Rattle.timestamp.specs.Timestamp.{timestamp_answer, timestamp_of, in_range};
ghost use Rattle.timestamp.specs.inside.Leaves.{form_of};

use calendar::month_length;
use names::the_refusal::Cause;

// A moment as it is written; `offset` is minutes east of UTC, and 1439.
#[derive(Clone, Copy)]
pub struct Moment {
    pub year: u16,
    pub month: u8,
    pub day: u8,
    pub hour: u8,
    pub minute: u8,
    pub second: u8,
    pub nanos: u32,
    pub offset: u16,
}

// By rule V5.
fn form_of(s: &[u8]) -> Option<Moment>
    ensures { result ≡ form_of s.now }
{
    if s.len() < 20 {
        return None;
    }
    let (year, month, day) = parts::date_of(s)?;
    let (hour, minute, second) = clock::clock_of(s)?;
    let (nanos, width) = parts::fraction_of(&s[19..])?;
    let at = 19 + width;
    let offset = parts::zone_of(&s[at..])?;
    Some(Moment {
        year,
        month,
        day,
        hour,
        minute,
        second,
        nanos,
        offset,
    })
}

// A timestamp is ASCII, so only what is none has to be tested for UTF-8 (rule V1).
pub fn timestamp_of(s: &[u8]) -> Result<Moment, Cause>
    ensures { timestamp_answer result ≡ timestamp_of s.now }
{
    let Some(m) = form_of(s) else {
        if fraction::the_utf8::is_utf8(s) {
            return Err(Cause::BadTimestamp);
        }
        return Err(Cause::NotUtf8);
    };
    Ok(m)
}

// By rule B10.
pub fn in_range(m: Moment) -> bool
    ensures { result ≡ in_range m }
{
    let months = (m.year <= 9999) & (1 <= m.month) & (m.month <= 12);
    let days = (1 <= m.day) & (m.day <= month_length(m.year, m.month));
    let clock = (m.hour <= 23) & (m.minute <= 59) & (m.second <= 59);
    months & days & clock & (m.nanos < 1000000000) & (m.offset <= 2878)
}
