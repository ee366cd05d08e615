// Single characters: their width, their code point, and the bytes of a code point.
#![tactic(auto)]

ghost use Rattle.std.specs.Prelude.{◌≡◌, ◌≤◌, ◌<◌, length, take};
ghost use Rattle.utf8.specs.of_area.Area.{zeros, laid};
ghost use Rattle.utf8.specs.Utf8.{runs, width};
ghost use Rattle.utf8.specs.Characters.{scalar, first_scalar, is_scalar, encode};

pub use utf8 as the_utf8;
pub use utf8::{the_area, the_refusal};
use utf8::{high_of, low_of, need_of};

// A character's bytes, the first n of the four.
#[derive(Clone, Copy)]
pub struct Coded {
    pub bytes: [u8; 4],
    pub n: usize,
}

// Whether s begins with n bytes, the first from lo to hi and the others from 80 to BF.
fn runs_of(s: &[u8], n: usize, lo: u8, hi: u8) -> bool
    ensures { result ≡ runs s.now n lo hi }
{
    if s.len() < n {
        return false;
    }
    let mut least = lo;
    let mut most = hi;
    for i in 0..n {
        let b = s[i];
        if (b < least) | (most < b) {
            return false;
        }
        least = 0x80;
        most = 0xbf;
    }
    true
}

// The width of the character that s begins with, 0 where s begins with none.
pub fn char_width(s: &[u8]) -> usize
    ensures { result ≡ width s.now }
{
    if s.len() == 0 {
        return 0;
    }
    let b = s[0];
    let n = need_of(b);
    if runs_of(&s[1..], n, low_of(b), high_of(b)) {
        return n + 1;
    }
    0
}

fn wide(x: u8) -> u32
    ensures { result ≡ x }
{
    x as u32
}

// The code point of the character that the first n bytes of s are.
fn scalar_in(s: &[u8], n: usize) -> u32
    requires { (n ≤ 4) × (n ≤ length s.now) }
    ensures { result ≡ scalar (take n s.now) }
{
    if n == 0 {
        return 0;
    }
    let a = wide(s[0]);
    if n == 1 {
        return a;
    }
    let b = wide(s[1]);
    if n == 2 {
        return a % 32 * 64 + b % 64;
    }
    let c = wide(s[2]);
    if n == 3 {
        return a % 16 * 4096 + b % 64 * 64 + c % 64;
    }
    let d = wide(s[3]);
    a % 8 * 262144 + b % 64 * 4096 + c % 64 * 64 + d % 64
}

// The code point of the character that s begins with, 0 where s begins with none.
pub fn scalar_of(s: &[u8]) -> u32
    ensures { result ≡ first_scalar s.now }
{
    scalar_in(s, char_width(s))
}

fn low8(x: u32) -> u8
    requires { x < 256 }
    ensures { result ≡ x }
{
    x as u8
}

fn is_scalar(c: u32) -> bool
    ensures { result ≡ is_scalar c }
{
    (c <= 0xd7ff) | ((0xe000 <= c) & (c <= 0x10ffff))
}

// The character of the code point c; no bytes for what is none.
pub fn encode_of(c: u32) -> Coded
    ensures { (result.n ≡ length (encode c)) × (result.bytes ≡ laid (zeros 4) (encode c)) }
{
    if !is_scalar(c) {
        return Coded {
            bytes: [0, 0, 0, 0],
            n: 0,
        };
    }
    if c < 0x80 {
        return Coded {
            bytes: [low8(c), 0, 0, 0],
            n: 1,
        };
    }
    let last = low8(128 + c % 64);
    if c < 0x800 {
        return Coded {
            bytes: [low8(192 + c / 64), last, 0, 0],
            n: 2,
        };
    }
    let third = low8(128 + c / 64 % 64);
    if c < 0x10000 {
        return Coded {
            bytes: [low8(224 + c / 4096), third, last, 0],
            n: 3,
        };
    }
    Coded {
        bytes: [
            low8(240 + c / 262144),
            low8(128 + c / 4096 % 64),
            third,
            last,
        ],
        n: 4,
    }
}
