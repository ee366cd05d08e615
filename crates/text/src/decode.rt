// What a value with references stands for, one piece after the other: a byte, or the character of a reference.
ghost use Rattle.std.specs.Prelude.{◌≡◌, [], ◌∷◌, ◌++◌, ◌-◌, ◌≤◌, length, take, drop};
ghost use Rattle.utf8_chars.specs.of_area.Area.{stored_answer, placing, laid};
ghost use Rattle.reference.specs.Reference.{decoded};
ghost use Rattle.text.specs.Kept.{kept_answer};
ghost use Rattle.text.specs.Decode.{cleaned, piece_of, piece_width, Pieced, decoded_of, decoded_laid};
ghost use Rattle.text.specs.inside.Plain.{plain, run};
ghost use Rattle.utf8_chars.specs.of_refusal.declared.Cause.TheVariants as cause;
ghost use Rattle.utf8_chars.specs.of_refusal.declared.Cause.{Cause};

use crate::kept::{Unkept, kept_of};
use reference::{ref_at, refs_ok};
use text_filter::is_dropped;
use text_filter::the_copying::copy_into;
use utf8_chars::encode_of;
use utf8_chars::the_utf8::is_utf8;

// The bytes of a piece, the first n of the four, and how many bytes of the value it takes.
#[derive(Clone, Copy)]
pub struct Piece {
    pub bytes: [u8; 4],
    pub n: usize,
    pub width: usize,
}

fn byte_piece(b: u8, clean: bool) -> Piece
    ensures { Pieced (cleaned clean (b ∷ [])) 1 result }
{
    if clean & is_dropped(b) {
        return Piece {
            bytes: [0, 0, 0, 0],
            n: 0,
            width: 1,
        };
    }
    Piece {
        bytes: [b, 0, 0, 0],
        n: 1,
        width: 1,
    }
}

// The first piece of s. A reference names an XML Char, whose bytes the filter never drops, so the filter looks at plain bytes only.
// An ampersand that begins no reference stands for U+0000.
pub fn piece_of(s: &[u8], clean: bool) -> Piece
    ensures { Pieced (cleaned clean (piece_of s.now)) (piece_width s.now) result }
{
    if s.len() == 0 {
        return Piece {
            bytes: [0, 0, 0, 0],
            n: 0,
            width: 0,
        };
    }
    let b = s[0];
    if b != 0x26 {
        return byte_piece(b, clean);
    }
    let Some((c, w)) = ref_at(&s[1..]) else {
        return byte_piece(0, clean);
    };
    let e = encode_of(c);
    let bytes = e.bytes;
    Piece {
        bytes,
        n: e.n,
        width: w + 1,
    }
}

// Puts the piece into out from k on.
fn put_piece(out: &mut [u8], k: usize, p: Piece) -> Option<usize>
    requires k_in_bounds { k ≤ length out.old }
    requires n_in_bounds { p.n ≤ length p.bytes }
    ensures result_value { stored_answer cause.OutputFull result ≡ placing cause.OutputFull (length out.old - k) (take p.n p.bytes) }
    ensures out_after { out.new ≡ take k out.old ++ laid (drop k out.old) (take p.n p.bytes) }
{
    copy_into(&mut out[k..], &p.bytes[..p.n])
}

// How many bytes at the front of s are put as they are.
fn run_of(s: &[u8], clean: bool) -> usize
    ensures { result ≡ run clean s.now }
{
    for i in 0..s.len() {
        let b = s[i];
        if (b == 0x26) | (clean & is_dropped(b)) {
            return i;
        }
    }
    s.len()
}

// Puts them into out from k on.
fn put_run(out: &mut [u8], k: usize, s: &[u8], clean: bool) -> Option<usize>
    requires { k ≤ length out.old }
    ensures result_value { stored_answer cause.OutputFull result ≡ placing cause.OutputFull (length out.old - k) (take (run clean s.now) s.now) }
    ensures out_after { out.new ≡ take k out.old ++ laid (drop k out.old) (take (run clean s.now) s.now) }
{
    let n = run_of(s, clean);
    copy_into(&mut out[k..], &s[..n])
}

// Puts what s stands for at the front of out, filtered where `clean` asks for it; only what is put needs room (rule M7).
pub fn write_decoded(out: &mut [u8], s: &[u8], clean: bool) -> Option<usize>
    ensures result_value { stored_answer cause.TextFull result ≡ placing cause.TextFull (length out.old) (cleaned clean (decoded s.now 0)) }
    ensures out_after { out.new ≡ laid out.old (cleaned clean (decoded s.now 0)) }
{
    let mut i = 0;
    let mut k = 0;
    // while: each step passes a run and a whole piece.
    while i < s.len() {
        let m = put_run(out, k, &s[i..], clean)?;
        k += m;
        i += m;
        let p = piece_of(&s[i..], clean);
        let n = put_piece(out, k, p)?;
        k += n;
        i += p.width;
    }
    Some(k)
}

// Whether every byte is plain. No exit before the end: so the compiler takes many bytes at a time.
fn is_plain(s: &[u8]) -> bool
    ensures { result ≡ plain s.now }
{
    let mut odd = false;
    for b in s {
        odd = odd | ((*b == 0x26) | ((*b < 0x20) | (0x7f < *b)));
    }
    !odd
}

// 2 and 10 come before a refusal for want of room (rule M7): the whole value is checked before any of it is put. A plain value is
// put as it is.
pub fn put_decoded(out: &mut [u8], s: &[u8], clean: bool) -> Result<usize, Unkept>
    ensures result_value { (short : Cause) → kept_answer short result ≡ decoded_of short clean (length out.old) s.now }
    ensures out_after { out.new ≡ decoded_laid clean out.old s.now }
{
    if is_plain(s) {
        return kept_of(copy_into(out, s));
    }
    if !is_utf8(s) {
        return Err(Unkept::NotUtf8);
    }
    if !refs_ok(s) {
        return Err(Unkept::BadReference);
    }
    kept_of(write_decoded(out, s, clean))
}
