// Words of an entry, the bytes that they tell of, and whether there are so many.
#![tactic(auto)]

ghost use Rattle.std.specs.Prelude.{◌≡◌, get_or};
ghost use Rattle.table_parts.specs.Parts.{part, within};

pub use area as the_area;
pub use area::the_refusal;
use area::wide;

// Word k of the entry that `words` begins with, 0 behind its end (rule T1).
pub fn word_of(words: &[u32], k: usize) -> u32
    ensures { result ≡ get_or words.now k 0 }
{
    if k < words.len() {
        return words[k];
    }
    0
}

// The bytes of `source` from `start` for `len`, as far as there are any (rule T1).
pub fn bytes_of(source: &[u8], start: usize, len: usize) -> &[u8]
    ensures { result.now ≡ part source.now start len }
{
    let size = source.len();
    if size <= start {
        return &source[size..];
    }
    if size - start <= len {
        return &source[start..];
    }
    let end = start + len;
    &source[start..end]
}

// By rule T10.
pub fn is_within(size: usize, start: u32, len: u32) -> bool
    ensures { result ≡ within size start len }
{
    wide(start) + wide(len) <= size
}
