// The filter of control characters, into the text area from its fill mark on.
#![tactic(auto)]

ghost use Rattle.std.specs.Prelude.{◌≡◌, length};
ghost use Rattle.copying.specs.of_area.Area.{stored_answer, placing, laid};
ghost use Rattle.text_filter.specs.Filter.{dropped, filtered, unfiltered};
ghost use Rattle.copying.specs.of_refusal.declared.Cause.TheVariants as cause;

pub use copying as the_copying;
use copying::copy_into;
pub use utf8 as the_utf8;

// By rule X8.
pub fn is_dropped(b: u8) -> bool
    ensures { result ≡ dropped b }
{
    (b <= 0x08) | (b == 0x0b) | (b == 0x0c) | ((0x0e <= b) & (b <= 0x1f))
}

// Whether nothing is dropped. No exit before the end: so the compiler takes many bytes at a time.
pub fn is_clean(s: &[u8]) -> bool
    ensures { result ≡ unfiltered s.now }
{
    let mut odd = false;
    for b in s {
        odd = odd | is_dropped(*b);
    }
    !odd
}

// Byte by byte.
fn store_each(out: &mut [u8], s: &[u8]) -> Option<usize>
    ensures result_value { stored_answer cause.TextFull result ≡ placing cause.TextFull (length out.old) (filtered s.now) }
    ensures out_after { out.new ≡ laid out.old (filtered s.now) }
{
    let mut k = 0;
    for b in s {
        if !is_dropped(*b) {
            if out.len() <= k {
                return None;
            }
            out[k] = *b;
            k += 1;
        }
    }
    Some(k)
}

// Puts s without the dropped bytes at the front of out (rule X8).
pub fn store(out: &mut [u8], s: &[u8]) -> Option<usize>
    ensures result_value { stored_answer cause.TextFull result ≡ placing cause.TextFull (length out.old) (filtered s.now) }
    ensures out_after { out.new ≡ laid out.old (filtered s.now) }
{
    if is_clean(s) {
        return copy_into(out, s);
    }
    store_each(out, s)
}
