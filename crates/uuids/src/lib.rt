// UUIDs, read from their text.
#![tactic(auto)]

ghost use Rattle.std.specs.Prelude.{◌≡◌};
ghost use Rattle.uuids.specs.Uuid.{form_of, uuid_answer, uuid_of};

pub use fixed as the_fixed;
pub use names::the_area;
use names::the_refusal::Cause;

// The 16 octets, the most significant first.
#[derive(Clone, Copy)]
pub struct Words {
    pub a: u32,
    pub b: u32,
    pub c: u32,
    pub d: u32,
}

// By rule V9.
fn form_of(s: &[u8]) -> Option<Words>
    ensures { result ≡ form_of s.now }
{
    if s.len() != 36 {
        return None;
    }
    // The fifth group is read in two parts, four digits and the last eight.
    let first = fixed::hexadecimal_at(s, 0, 8, 0xffffffff)?;
    let second = fixed::hexadecimal_at(s, 9, 4, 0xffff)?;
    let third = fixed::hexadecimal_at(s, 14, 4, 0xffff)?;
    let fourth = fixed::hexadecimal_at(s, 19, 4, 0xffff)?;
    let fifth = fixed::hexadecimal_at(s, 24, 4, 0xffff)?;
    let last = fixed::hexadecimal_at(s, 28, 8, 0xffffffff)?;
    if (s[8] == 0x2d) & (s[13] == 0x2d) & (s[18] == 0x2d) & (s[23] == 0x2d) {
        return Some(Words {
            a: first,
            b: second * 65536 + third,
            c: fourth * 65536 + fifth,
            d: last,
        });
    }
    None
}

// A UUID is ASCII, so only what is none has to be tested for UTF-8 (rule V1).
pub fn uuid_of(s: &[u8]) -> Result<Words, Cause>
    ensures { uuid_answer result ≡ uuid_of s.now }
{
    let Some(words) = form_of(s) else {
        if fixed::the_utf8::is_utf8(s) {
            return Err(Cause::BadUuid);
        }
        return Err(Cause::NotUtf8);
    };
    Ok(words)
}
