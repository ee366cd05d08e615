// UTF-8, by RFC 3629.
#![tactic(auto)]

ghost use Rattle.std.specs.Prelude.{◌≡◌};
ghost use Rattle.utf8.specs.Utf8.{need, low, high, utf8};
ghost use Rattle.utf8.specs.inside.Ascii.{ascii};

pub use area as the_area;
pub use area::the_refusal;

// How many bytes follow the lead byte b.
pub fn need_of(b: u8) -> usize
    ensures { result ≡ need b }
{
    if b < 0x80 {
        return 0;
    }
    if b < 0xe0 {
        return 1;
    }
    if b < 0xf0 {
        return 2;
    }
    if b < 0xf5 {
        return 3;
    }
    1
}

// The least byte that may stand behind b.
pub fn low_of(b: u8) -> u8
    ensures { result ≡ low b }
{
    if b == 0xe0 {
        return 0xa0;
    }
    if b == 0xf0 {
        return 0x90;
    }
    0x80
}

// The greatest byte that may stand behind b.
pub fn high_of(b: u8) -> u8
    ensures { result ≡ high b }
{
    if (b < 0xc2) | (0xf4 < b) {
        return 0;
    }
    if b == 0xed {
        return 0x9f;
    }
    if b == 0xf4 {
        return 0x8f;
    }
    0xbf
}

// Whether every byte is a character by itself. No exit before the end: so the compiler takes many bytes at a time.
fn is_ascii(s: &[u8]) -> bool
    ensures { result ≡ ascii s.now }
{
    let mut odd = false;
    for b in s {
        odd = odd | (0x80 <= *b);
    }
    !odd
}

// In one loop over the bytes: k bytes of a character are still to come, the next from lo to hi.
fn is_run(s: &[u8]) -> bool
    ensures { result ≡ utf8 s.now }
{
    let mut k: usize = 0;
    let mut lo: u8 = 0x80;
    let mut hi: u8 = 0xbf;
    for b in s {
        let b = *b;
        if k == 0 {
            if 0x80 <= b {
                k = need_of(b);
                lo = low_of(b);
                hi = high_of(b);
            }
        } else {
            if (b < lo) | (hi < b) {
                return false;
            }
            k -= 1;
            lo = 0x80;
            hi = 0xbf;
        }
    }
    k == 0
}

// By rule X2. Most texts are ASCII.
pub fn is_utf8(s: &[u8]) -> bool
    ensures { result ≡ utf8 s.now }
{
    if is_ascii(s) {
        return true;
    }
    is_run(s)
}
