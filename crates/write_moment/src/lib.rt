// Timestamps as they are written, put into an area that the caller lends.
#![tactic(auto)]

ghost use Rattle.std.specs.Prelude.{◌≡◌, ◌<◌, length};
ghost use Rattle.std.proofs.lemmas.List.Edits.{sets};
ghost use Rattle.timestamp.specs.of_area.Area.{stored_answer, placing, laid};
ghost use Rattle.timestamp.specs.of_digits.Digits.{last_digits_of};
ghost use Rattle.write_moment.specs.Written.{sign, away, timestamp_text};
ghost use Rattle.timestamp.specs.of_refusal.declared.Cause.TheVariants as cause;

pub use timestamp as the_timestamp;
use timestamp::Moment;
use timestamp::the_area::copy_into;

// Puts the last two digits of n into bytes from `at` on.
fn put_two(bytes: &mut [u8; 29], at: usize, n: u32)
    requires { at < 28 }
    ensures { bytes.new ≡ sets bytes.old at (last_digits_of 2 n) }
{
    bytes[at] = 0x30 + (n / 10 % 10) as u8;
    bytes[at + 1] = 0x30 + (n % 10) as u8;
}

fn sign_of(offset: u16) -> u8
    ensures { result ≡ sign offset }
{
    if offset < 1439 { b'-' } else { b'+' }
}

fn away_of(offset: u16) -> u32
    ensures { result ≡ away offset }
{
    if offset < 1439 {
        return (1439 - offset) as u32;
    }
    (offset - 1439) as u32
}

// The three digits of the milliseconds are put as two pairs that share the middle one.
fn spell(m: Moment) -> [u8; 29]
    ensures { result ≡ timestamp_text m }
{
    let mut bytes = *b"0000-00-00T00:00:00.000+00:00";
    let year = m.year as u32;
    let millis = m.nanos / 1000000;
    let away = away_of(m.offset);
    put_two(&mut bytes, 0, year / 100);
    put_two(&mut bytes, 2, year);
    put_two(&mut bytes, 5, m.month as u32);
    put_two(&mut bytes, 8, m.day as u32);
    put_two(&mut bytes, 11, m.hour as u32);
    put_two(&mut bytes, 14, m.minute as u32);
    put_two(&mut bytes, 17, m.second as u32);
    put_two(&mut bytes, 20, millis / 10);
    put_two(&mut bytes, 21, millis);
    bytes[23] = sign_of(m.offset);
    put_two(&mut bytes, 24, away / 60);
    put_two(&mut bytes, 27, away % 60);
    bytes
}

// Puts m at the front of out (rule W9).
pub fn write_timestamp(out: &mut [u8], m: Moment) -> Option<usize>
    ensures result_value { stored_answer cause.OutputFull result ≡ placing cause.OutputFull (length out.old) (timestamp_text m) }
    ensures out_after { out.new ≡ laid out.old (timestamp_text m) }
{
    let bytes = spell(m);
    copy_into(out, &bytes)
}
