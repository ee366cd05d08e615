// The key of an extra, compared with a stored one without storing it.
#![tactic(auto)]

ghost use Rattle.std.specs.Prelude.{◌≡◌, ◌≤◌, length, take, drop};
ghost use Rattle.text.specs.of_names.Names.{same_bytes};
ghost use Rattle.text.specs.Value.{value_text};

pub use text as the_text;
use text::decode::{Piece, piece_of};
use text::the_names::same;
pub use text::{the_area, the_names, the_refusal};

// Whether the piece stands in s from k on.
fn stands_at(s: &[u8], k: usize, p: Piece) -> bool
    requires k_in_bounds { k ≤ length s.now }
    requires n_in_bounds { p.n ≤ length p.bytes }
    ensures { result ≡ same_bytes (take p.n (drop k s.now)) (take p.n p.bytes) }
{
    if s.len() - k < p.n {
        return false;
    }
    same(&s[k..k + p.n], &p.bytes[..p.n])
}

// Whether stored is the text that would be stored for raw.
pub fn is_cleaned(stored: &[u8], raw: &[u8]) -> bool
    ensures { result ≡ same_bytes stored.now (value_text raw.now) }
{
    let mut i = 0;
    let mut k = 0;
    // while: each step passes a whole piece.
    while i < raw.len() {
        let p = piece_of(&raw[i..], true);
        if !stands_at(stored, k, p) {
            return false;
        }
        k += p.n;
        i += p.width;
    }
    k == stored.len()
}

// How many bytes would be stored for a key.
pub fn cleaned_length(key: &[u8]) -> usize
    ensures { result ≡ length (value_text key.now) }
{
    let mut i = 0;
    let mut k = 0;
    // while: each step passes a whole piece.
    while i < key.len() {
        let p = piece_of(&key[i..], true);
        k += p.n;
        i += p.width;
    }
    k
}
