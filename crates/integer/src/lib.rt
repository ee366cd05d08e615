// Integers as attribute values.
#![tactic(auto)]

ghost use Rattle.std.specs.Prelude.{◌≡◌};
ghost use Rattle.integer.specs.Integer.{unsigned, integer_answer, integer_of};

pub use names as the_names;
use names::the_refusal::Cause;
pub use names::{the_area, the_refusal};

// The text behind one plus sign, if there is one.
fn behind_plus(s: &[u8]) -> &[u8]
    ensures { result.now ≡ unsigned s.now }
{
    if s.is_empty() {
        return s;
    }
    if s[0] == b'+' {
        return &s[1..];
    }
    s
}

// By rules V1 and V2.
pub fn integer_of(s: &[u8]) -> Result<u64, Cause>
    ensures { integer_answer result ≡ integer_of s.now }
{
    match digits::decimal(behind_plus(s), 18446744073709551615) {
        Some(v) => Ok(v),
        None => {
            if digits::the_utf8::is_utf8(s) {
                return Err(Cause::BadInteger);
            }
            Err(Cause::NotUtf8)
        }
    }
}
