// Text in the public listing, put into an area that the caller lends.
#![tactic(auto)]

ghost use Rattle.std.specs.Prelude.{◌≡◌, ◌+◌, ◌≤◌, length};
ghost use Rattle.copying.specs.of_area.Area.{stored_answer, placing, laid};
ghost use Rattle.escape.specs.Escape.{marked, letter, escaped};
ghost use Rattle.escape.specs.inside.Plain.{plain};
ghost use Rattle.copying.specs.of_refusal.declared.Cause.TheVariants as cause;

pub use copying as the_copying;
use copying::copy_into;

fn is_marked(b: u8) -> bool
    ensures { result ≡ marked b }
{
    (b == b'"') | (b == b'\\') | (b == b'\n') | (b == b'\t') | (b == b'\r')
}

fn letter_of(b: u8) -> u8
    ensures { result ≡ letter b }
{
    match b {
        b'\n' => b'n',
        b'\t' => b't',
        b'\r' => b'r',
        _ => b,
    }
}

// Whether each byte stands for itself. No exit before the end: so the compiler takes many bytes at a time.
fn is_plain(s: &[u8]) -> bool
    ensures { result ≡ plain s.now }
{
    let mut odd = false;
    for b in s {
        odd = odd | is_marked(*b);
    }
    !odd
}

// n bytes at the front and n at the end, which together are all.
fn is_plain_around(s: &[u8], n: usize) -> bool
    requires { (n ≤ length s.now) × (length s.now ≤ n + n) }
    ensures { result ≡ plain s.now }
{
    let last = s.len() - n;
    is_plain(&s[..n]) & is_plain(&s[last..])
}

// Sixteen bytes at a time, and the last sixteen, some of them again.
fn is_plain_long(s: &[u8]) -> bool
    requires { 16 ≤ length s.now }
    ensures { result ≡ plain s.now }
{
    for k in 0..s.len() / 16 {
        let i = k * 16;
        if !is_plain(&s[i..i + 16]) {
            return false;
        }
    }
    let last = s.len() - 16;
    is_plain(&s[last..])
}

// Where the compiler knows how many bytes are tested, none of them goes by itself.
fn is_plain_text(s: &[u8]) -> bool
    ensures { result ≡ plain s.now }
{
    if 16 <= s.len() {
        return is_plain_long(s);
    }
    if 8 <= s.len() {
        return is_plain_around(s, 8);
    }
    if 4 <= s.len() {
        return is_plain_around(s, 4);
    }
    is_plain(s)
}

// Byte by byte.
fn escape_bytes(out: &mut [u8], s: &[u8]) -> Option<usize>
    ensures result_value { stored_answer cause.OutputFull result ≡ placing cause.OutputFull (length out.old) (escaped s.now) }
    ensures out_after { out.new ≡ laid out.old (escaped s.now) }
{
    let mut k = 0;
    for b in s {
        if is_marked(*b) {
            if out.len() <= k {
                return None;
            }
            out[k] = b'\\';
            k += 1;
        }
        if out.len() <= k {
            return None;
        }
        out[k] = letter_of(*b);
        k += 1;
    }
    Some(k)
}

// Puts s, escaped, at the front of out (rule L8).
pub fn escape_into(out: &mut [u8], s: &[u8]) -> Option<usize>
    ensures result_value { stored_answer cause.OutputFull result ≡ placing cause.OutputFull (length out.old) (escaped s.now) }
    ensures out_after { out.new ≡ laid out.old (escaped s.now) }
{
    if is_plain_text(s) {
        return copy_into(out, s);
    }
    escape_bytes(out, s)
}
