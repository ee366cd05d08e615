// The part of a text between its first and its last character that is no white space.
#![tactic(auto)]

ghost use Rattle.std.specs.Prelude.{◌≡◌, ◌≤◌, ◌<◌, length, take, drop};
ghost use Rattle.utf8_chars.specs.of_utf8.Characters.{step, chars, joined};
ghost use Rattle.trim.specs.Trim.{white, blank, no_start_of, no_end_of, trimmed};

pub use utf8_chars as the_utf8_chars;
pub use utf8_chars::{the_area, the_refusal, the_utf8};

// The character that a text begins with: its width, and whether it is white.
#[derive(Clone, Copy)]
struct First {
    width: usize,
    white: bool,
}

fn is_white(c: u32) -> bool
    ensures { result ≡ white c }
{
    ((0x09 <= c) & (c <= 0x0d))
        | (c == 0x20)
        | (c == 0x85)
        | (c == 0xa0)
        | (c == 0x1680)
        | ((0x2000 <= c) & (c <= 0x200a))
        | (c == 0x2028)
        | (c == 0x2029)
        | (c == 0x202f)
        | (c == 0x205f)
        | (c == 0x3000)
}

// A byte that begins no character is one byte wide, and not white.
fn first_of(s: &[u8]) -> First
    requires { 0 < length s.now }
    ensures { (result.width ≡ step s.now) × (result.white ≡ blank (take (step s.now) s.now)) }
{
    let w = utf8_chars::char_width(s);
    if w == 0 {
        return First {
            width: 1,
            white: false,
        };
    }
    First {
        width: w,
        white: is_white(utf8_chars::scalar_of(s)),
    }
}

// Where the first character stands that is not white.
fn start_of(s: &[u8]) -> usize
    ensures { (result ≤ length s.now) × (no_start_of (chars s.now) ≡ chars (drop result s.now)) }
{
    let mut i = 0;
    // while: each step passes a whole character.
    while i < s.len() {
        let f = first_of(&s[i..]);
        let w = f.width;
        if !f.white {
            return i;
        }
        i += w;
    }
    i
}

// The place behind the last character that is not white, going forward, character by character.
fn end_forward(s: &[u8]) -> usize
    ensures { (result ≤ length s.now) × (joined (no_end_of (chars s.now)) ≡ take result s.now) }
{
    let mut to = 0;
    let mut j = 0;
    // while: each step passes a whole character.
    while j < s.len() {
        let f = first_of(&s[j..]);
        let w = f.width;
        j += w;
        if !f.white {
            to = j;
        }
    }
    to
}

// The same, going back over the ASCII that stands at the end.
fn end_of(s: &[u8]) -> usize
    ensures { (result ≤ length s.now) × (joined (no_end_of (chars s.now)) ≡ take result s.now) }
{
    for i in (0..s.len()).rev() {
        let b = s[i];
        if 0x80 <= b {
            return end_forward(s);
        }
        if !is_white(b as u32) {
            return i + 1;
        }
    }
    0
}

// By rule X10.
pub fn trim(s: &[u8]) -> &[u8]
    ensures { result.now ≡ trimmed s.now }
{
    let from = start_of(s);
    let rest = &s[from..];
    let to = end_of(rest);
    &rest[..to]
}
