// Text and values as they are written, put into an area that the caller lends.
#![tactic(auto)]

ghost use Rattle.std.specs.Prelude.{◌≡◌, ◌+◌, ◌≤◌, length};
ghost use Rattle.names.specs.of_area.Area.{stored_answer, placing, laid};
ghost use Rattle.write_escape.specs.Escape.{written, escaped};
ghost use Rattle.write_escape.specs.inside.Plain.{plain};
ghost use Rattle.names.specs.of_refusal.declared.Cause.TheVariants as cause;

use escape::the_copying::copy_into;
pub use names as the_names;

// Puts what stands for b at the front of out.
fn put_byte(out: &mut [u8], b: u8) -> Option<usize>
    ensures result_value { stored_answer cause.OutputFull result ≡ placing cause.OutputFull (length out.old) (written b) }
    ensures out_after { out.new ≡ laid out.old (written b) }
{
    match b {
        b'&' => copy_into(out, b"&amp;"),
        b'<' => copy_into(out, b"&lt;"),
        b'>' => copy_into(out, b"&gt;"),
        b'\'' => copy_into(out, b"&apos;"),
        b'"' => copy_into(out, b"&quot;"),
        _ => {
            if out.len() == 0 {
                return None;
            }
            out[0] = b;
            Some(1)
        }
    }
}

// Puts s, escaped, at the front of out, byte by byte.
fn escape_bytes(out: &mut [u8], s: &[u8]) -> Option<usize>
    ensures result_value { stored_answer cause.OutputFull result ≡ placing cause.OutputFull (length out.old) (escaped s.now) }
    ensures out_after { out.new ≡ laid out.old (escaped s.now) }
{
    let mut k = 0;
    for b in s {
        let n = put_byte(&mut out[k..], *b)?;
        k += n;
    }
    Some(k)
}

// Whether each byte stands for itself. No exit before the end and one mark for each of the five: so the compiler takes many bytes at a time.
fn is_plain(s: &[u8]) -> bool
    ensures { result ≡ plain s.now }
{
    let mut amp = false;
    let mut lt = false;
    let mut gt = false;
    let mut apos = false;
    let mut quot = false;
    for b in s {
        amp = amp | (*b == b'&');
        lt = lt | (*b == b'<');
        gt = gt | (*b == b'>');
        apos = apos | (*b == b'\'');
        quot = quot | (*b == b'"');
    }
    !(amp | (lt | (gt | (apos | quot))))
}

// n bytes at the front and n at the end, which together are all.
fn is_plain_around(s: &[u8], n: usize) -> bool
    requires { (n ≤ length s.now) × (length s.now ≤ n + n) }
    ensures { result ≡ plain s.now }
{
    let last = s.len() - n;
    is_plain(&s[..n]) & is_plain(&s[last..])
}

// Sixteen bytes at a time, and the last sixteen, some of them again.
fn is_plain_long(s: &[u8]) -> bool
    requires { 16 ≤ length s.now }
    ensures { result ≡ plain s.now }
{
    for k in 0..s.len() / 16 {
        let i = k * 16;
        if !is_plain(&s[i..i + 16]) {
            return false;
        }
    }
    let last = s.len() - 16;
    is_plain(&s[last..])
}

// Where the compiler knows how many bytes are tested, none of them goes by itself.
fn is_plain_text(s: &[u8]) -> bool
    ensures { result ≡ plain s.now }
{
    if 16 <= s.len() {
        return is_plain_long(s);
    }
    if 8 <= s.len() {
        return is_plain_around(s, 8);
    }
    if 4 <= s.len() {
        return is_plain_around(s, 4);
    }
    is_plain(s)
}

fn put_block(out: &mut [u8], s: &[u8]) -> Option<usize>
    ensures result_value { stored_answer cause.OutputFull result ≡ placing cause.OutputFull (length out.old) (escaped s.now) }
    ensures out_after { out.new ≡ laid out.old (escaped s.now) }
{
    if is_plain_text(s) {
        return copy_into(out, s);
    }
    escape_bytes(out, s)
}

// Puts s, escaped, at the front of out (rule W8), block by block, so that only a block with one of the five goes byte by byte.
pub fn escape_into(out: &mut [u8], s: &[u8]) -> Option<usize>
    ensures result_value { stored_answer cause.OutputFull result ≡ placing cause.OutputFull (length out.old) (escaped s.now) }
    ensures out_after { out.new ≡ laid out.old (escaped s.now) }
{
    let mut k = 0;
    for block in s.chunks(64) {
        let n = put_block(&mut out[k..], block)?;
        k += n;
    }
    Some(k)
}
