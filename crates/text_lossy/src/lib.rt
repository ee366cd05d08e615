// Texts that go in lossily: read as UTF-8 with U+FFFD for what is none, filtered and stored in one go, with no other memory.
#![tactic(auto)]

ghost use Rattle.std.specs.Prelude.{◌≡◌, length};
ghost use Rattle.utf8_lossy.specs.of_area.Area.{stored_answer, placing, laid};
ghost use Rattle.text_filter.specs.Filter.{filtered};
ghost use Rattle.utf8_lossy.specs.Lossy.{part_text, Parted};
ghost use Rattle.text_lossy.specs.LossyText.{lossy_text};
ghost use Rattle.utf8_lossy.specs.of_refusal.declared.Cause.TheVariants as cause;

pub use text_filter as the_text_filter;
use text_filter::store;
pub use utf8_lossy::{the_area, the_utf8};
use utf8_lossy::{Part, part_of, put_part};

// Puts what the filter leaves of p, the part that s begins with, at the front of out.
fn store_part(out: &mut [u8], s: &[u8], p: Part) -> Option<usize>
    requires { Parted s.now p }
    ensures result_value { stored_answer cause.TextFull result ≡ placing cause.TextFull (length out.old) (filtered (part_text s.now)) }
    ensures out_after { out.new ≡ laid out.old (filtered (part_text s.now)) }
{
    if p.whole {
        let n = p.width;
        return store(out, &s[..n]);
    }
    put_part(out, s, p)
}

// Puts s, read lossily and filtered, at the front of out (rule B6).
pub fn store_lossy(out: &mut [u8], s: &[u8]) -> Option<usize>
    ensures result_value { stored_answer cause.TextFull result ≡ placing cause.TextFull (length out.old) (lossy_text s.now) }
    ensures out_after { out.new ≡ laid out.old (lossy_text s.now) }
{
    let mut i = 0;
    let mut k = 0;
    // while: each step passes a whole part.
    while i < s.len() {
        let p = part_of(&s[i..]);
        let n = store_part(&mut out[k..], &s[i..], p)?;
        k += n;
        i += p.width;
    }
    Some(k)
}
