// The slots of a record: present with good words, or absent with words of zero.
#![tactic(auto)]

ghost use Rattle.std.specs.Prelude.{◌≡◌, ◌+◌, ◌≤◌, ◌<◌, true, length};
ghost use Rattle.tree_report.specs.of_utf8.Characters.{boundary};
ghost use Rattle.tree_report.specs.of_tree_record.Record.{has_bit};
ghost use Rattle.tree_report.specs.Layout.{all_zero, zero_at};
ghost use Rattle.tree_report.specs.inside.Parts.{good_text_at, slot, text_slot};

use tree_report::the_area::wide;
use tree_report::the_tree_record::has_bit;
pub use tree_report::{
    the_area, the_fixed, the_names, the_refusal, the_text_filter, the_timestamp, the_tree_record,
    the_utf8, the_uuids,
};

// No exit before the end: so the compiler takes many words at a time.
pub fn is_zero(words: &[u32]) -> bool
    ensures { result ≡ all_zero words.now }
{
    let mut odd = false;
    for w in words {
        odd = odd | (*w != 0);
    }
    !odd
}

// One read: of a text the ends are looked at, whatever its length.
fn is_boundary(s: &[u8], i: usize) -> bool
    ensures { result ≡ boundary s.now i }
{
    if s.len() <= i {
        return i == s.len();
    }
    let b = s[i];
    !((0x80 <= b) & (b <= 0xbf))
}

// The text whose start and length are the words o and o + 1.
fn is_text(texts: &[u8], r: &[u32], o: usize) -> bool
    requires { o + 1 < length r.now }
    ensures { result ≡ good_text_at texts.now r.now o }
{
    let start = wide(r[o]);
    let end = start + wide(r[o + 1]);
    (end <= texts.len()) & (is_boundary(texts, start) & is_boundary(texts, end))
}

pub fn text_slot(texts: &[u8], r: &[u32], k: u32, o: usize) -> bool
    requires { (32 ≤ length r.now) × (o ≤ 30) }
    ensures { result ≡ text_slot texts.now r.now k o }
{
    if has_bit(r, k) {
        return is_text(texts, r, o);
    }
    is_zero(&r[o..o + 2])
}

// Words that may be anything where they are present.
pub fn free_slot(r: &[u32], k: u32, o: usize, n: usize) -> bool
    requires { (32 ≤ length r.now) × (o + n ≤ 32) }
    ensures { result ≡ slot (has_bit k r.now) true (zero_at r.now o n) }
{
    if has_bit(r, k) {
        return true;
    }
    is_zero(&r[o..o + n])
}
