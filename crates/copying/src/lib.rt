// Texts put at the front of an area in runs. Sixteen, eight or four bytes go by way of an array of their own, which nothing else can
// reach: so the compiler moves them at once, where it can't know that two slices don't overlap.
#![tactic(auto)]

ghost use Rattle.std.specs.Prelude.{◌≡◌, ◌+◌, ◌≤◌, length, take};
ghost use Rattle.area.specs.Area.{stored_answer, placing, laid};
ghost use Rattle.area.specs.of_refusal.declared.Cause.TheVariants as cause;

pub use area as the_area;

fn copy_each(out: &mut [u8], s: &[u8])
    requires { length s.now ≤ length out.old }
    ensures { out.new ≡ laid out.old s.now }
{
    for i in 0..s.len() {
        out[i] = s[i];
    }
}

// The first N bytes.
fn copy_first<const N: usize>(out: &mut [u8], s: &[u8])
    requires { (N ≤ length s.now) × (N ≤ length out.old) }
    ensures { out.new ≡ laid out.old (take N s.now) }
{
    let mut room = [0u8; N];
    room.copy_from_slice(&s[..N]);
    out[..N].copy_from_slice(&room);
}

// The first N bytes and the last N, which together are all.
fn copy_ends<const N: usize>(out: &mut [u8], s: &[u8])
    requires { (N ≤ length s.now) × (length s.now ≤ N + N) × (length s.now ≤ length out.old) }
    ensures { out.new ≡ laid out.old s.now }
{
    copy_first::<N>(out, s);
    let last = s.len() - N;
    copy_first::<N>(&mut out[last..], &s[last..]);
}

// Block by block, and the last one up to the end, over some bytes again.
fn copy_blocks(out: &mut [u8], s: &[u8])
    requires { (16 ≤ length s.now) × (length s.now ≤ length out.old) }
    ensures { out.new ≡ laid out.old s.now }
{
    for k in 0..s.len() / 16 {
        let i = k * 16;
        copy_first::<16>(&mut out[i..], &s[i..]);
    }
    let last = s.len() - 16;
    copy_first::<16>(&mut out[last..], &s[last..]);
}

fn copy_all(out: &mut [u8], s: &[u8])
    requires { length s.now ≤ length out.old }
    ensures { out.new ≡ laid out.old s.now }
{
    if 16 <= s.len() {
        copy_blocks(out, s);
        return;
    }
    if 8 <= s.len() {
        copy_ends::<8>(out, s);
        return;
    }
    if 4 <= s.len() {
        copy_ends::<4>(out, s);
        return;
    }
    copy_each(out, s);
}

// As `area::copy_into`: room is asked for once.
pub fn copy_into(out: &mut [u8], t: &[u8]) -> Option<usize>
    ensures result_value { stored_answer cause.OutputFull result ≡ placing cause.OutputFull (length out.old) t.now }
    ensures out_after { out.new ≡ laid out.old t.now }
{
    if out.len() < t.len() {
        return area::copy_into(out, t);
    }
    copy_all(out, t);
    Some(t.len())
}
