// Times as they are read.
ghost use Rattle.std.specs.Prelude.{◌≡◌};
ghost use Rattle.time.specs.Time.{time_answer, time_of, whole, fraction, up_to, formed_time};

use fraction::the_refusal::Cause;

// A number that may have no digit at all.
fn up_to(s: &[u8], most: u64) -> Option<u64>
    ensures { result ≡ up_to most s.now }
{
    if s.is_empty() {
        return Some(0);
    }
    fraction::the_digits::decimal(s, most)
}

// The time that a whole part and the digits behind the point make, by its form alone (rule V4).
fn time_in(whole: &[u8], digits: &[u8]) -> Option<(u32, u32)>
    ensures { result ≡ formed_time whole.now digits.now }
{
    if whole.is_empty() & digits.is_empty() {
        return None;
    }
    let seconds = up_to(whole, 8388607)?;
    let nanos = fraction::billionths_of(digits)?;
    Some((seconds as u32, nanos as u32))
}

// By rule V3.
fn formed_time(s: &[u8]) -> Option<(u32, u32)>
    ensures { result ≡ formed_time (whole s.now) (fraction s.now) }
{
    let p = fraction::the_area::first_at(s, 0x2e);
    if p < s.len() {
        let from = p + 1;
        return time_in(&s[..p], &s[from..]);
    }
    time_in(s, &s[p..])
}

// Seconds and nanoseconds. What has the form of a time is ASCII, so only other texts are looked at for UTF-8 (rule V1).
pub fn read_time(s: &[u8]) -> Result<(u32, u32), Cause>
    ensures { time_answer result ≡ time_of s.now }
{
    let Some(formed) = formed_time(s) else {
        if fraction::the_utf8::is_utf8(s) {
            return Err(Cause::BadTime);
        }
        return Err(Cause::NotUtf8);
    };
    Ok(formed)
}
