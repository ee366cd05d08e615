// Bytes read lossily: what isn't UTF-8 becomes U+FFFD, one for each maximal part that begins a character.
#![tactic(auto)]

ghost use Rattle.std.specs.Prelude.{◌≡◌, length};
ghost use Rattle.utf8.specs.of_area.Area.{stored_answer, placing, laid};
ghost use Rattle.utf8_lossy.specs.Lossy.{along, part_text, Parted};
ghost use Rattle.utf8.specs.of_refusal.declared.Cause.TheVariants as cause;

pub use utf8 as the_utf8;
pub use utf8::the_area;
use utf8::the_area::copy_into;
use utf8::{high_of, low_of, need_of};

// The part that a text begins with: how many bytes it takes, and whether it is a whole character.
#[derive(Clone, Copy)]
pub struct Part {
    pub width: usize,
    pub whole: bool,
}

// Of the n bytes that a lead byte asks for, the first from lo to hi and the others from 80 to BF: how many s begins with.
fn along_of(s: &[u8], n: usize, lo: u8, hi: u8) -> usize
    ensures { result ≡ along s.now n lo hi }
{
    let mut least = lo;
    let mut most = hi;
    let end = n.min(s.len());
    for i in 0..end {
        let b = s[i];
        if (b < least) | (most < b) {
            return i;
        }
        least = 0x80;
        most = 0xbf;
    }
    end
}

// The part that s begins with, of no bytes where s is empty; a caller goes on behind it.
pub fn part_of(s: &[u8]) -> Part
    ensures { Parted s.now result }
{
    if s.len() == 0 {
        return Part {
            width: 0,
            whole: true,
        };
    }
    let b = s[0];
    let n = need_of(b);
    let k = along_of(&s[1..], n, low_of(b), high_of(b));
    Part {
        width: k + 1,
        whole: k == n,
    }
}

// Puts what stands for p, the part that s begins with, at the front of out.
pub fn put_part(out: &mut [u8], s: &[u8], p: Part) -> Option<usize>
    requires { Parted s.now p }
    ensures result_value { stored_answer cause.OutputFull result ≡ placing cause.OutputFull (length out.old) (part_text s.now) }
    ensures out_after { out.new ≡ laid out.old (part_text s.now) }
{
    if p.whole {
        let n = p.width;
        return copy_into(out, &s[..n]);
    }
    copy_into(out, b"\xef\xbf\xbd")
}
