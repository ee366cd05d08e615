// The parts of a timestamp.
ghost use Rattle.std.specs.Prelude.{◌≡◌, ◌≤◌, length};
ghost use Rattle.timestamp.specs.Timestamp.{digit_run};
ghost use Rattle.timestamp.specs.inside.Leaves.{date_of, fraction_of, zone_of};

use calendar::month_length;
use clock::the_fixed::decimal_at;
use fraction::billionths_of;

// Year, month and day. By rule V6.
pub fn date_of(s: &[u8]) -> Option<(u16, u8, u8)>
    requires { 20 ≤ length s.now }
    ensures { result ≡ date_of s.now }
{
    let y = decimal_at(s, 0, 4, 9999)?;
    let m = decimal_at(s, 5, 2, 12)?;
    let d = decimal_at(s, 8, 2, 31)?;
    let year = y as u16;
    let month = m as u8;
    let day = d as u8;
    let marks = (s[4] == 0x2d) & (s[7] == 0x2d);
    if marks & (1 <= month) & (1 <= day) & (day <= month_length(year, month)) {
        return Some((year, month, day));
    }
    None
}

// How many digits s begins with.
fn digit_run(s: &[u8]) -> usize
    ensures { result ≡ digit_run s.now }
{
    for i in 0..s.len() {
        let b = s[i];
        if !((0x30 <= b) & (b <= 0x39)) {
            return i;
        }
    }
    s.len()
}

// Nanoseconds, and how many bytes tell them. By rule V7.
pub fn fraction_of(t: &[u8]) -> Option<(u32, usize)>
    requires { 1 ≤ length t.now }
    ensures { result ≡ fraction_of t.now }
{
    if t[0] != 0x2e {
        return Some((0, 0));
    }
    let n = digit_run(&t[1..]);
    if n < 1 {
        return None;
    }
    let end = n + 1;
    let nanos = billionths_of(&t[1..end])?;
    Some((nanos as u32, end))
}

// Minutes east of UTC, and 1439. By rule V8.
pub fn zone_of(z: &[u8]) -> Option<u16>
    ensures { result ≡ zone_of z.now }
{
    if z.len() == 1 {
        if (z[0] == 0x5a) | (z[0] == 0x7a) {
            return Some(1439);
        }
        return None;
    }
    if z.len() != 6 {
        return None;
    }
    let hour = decimal_at(z, 1, 2, 23)?;
    let minute = decimal_at(z, 4, 2, 59)?;
    let away = (hour * 60 + minute) as u16;
    if z[3] == 0x3a {
        if z[0] == 0x2b {
            return Some(1439 + away);
        }
        if z[0] == 0x2d {
            return Some(1439 - away);
        }
    }
    None
}
