// The place of an extra, told by the word of the attribute that leads its group: the first for which the same key would be stored.
#![tactic(auto)]

ghost use Rattle.std.specs.Prelude.{◌≡◌, true, ◌≤◌, ◌<◌, length, take, drop};
ghost use Rattle.read_element.specs.of_names.Names.{same_bytes};
ghost use Rattle.read_element.specs.of_text.Value.{value_text};
ghost use Rattle.read_places.specs.inside.Told.{Quiet};
ghost use Rattle.read_places.specs.inside.Stands.{stored_key};

use read_element::the_area::wide;
use read_element::the_table_parts::{bytes_of, word_of};
pub use read_element::{
    the_area, the_refusal, the_table_parts, the_text_filter, the_tree_put, the_tree_record,
};
pub use read_marks as the_read_marks;
use read_marks::the_text_key::{cleaned_length, is_cleaned};

// The stored key of extra i: its record stands behind the element's own and those before it.
fn stored_key<'a>(own: &[u32], text: &'a [u8], i: usize) -> &'a [u8]
    requires { i < 65536 }
    ensures { result.now ≡ stored_key own.now text.now i }
{
    let at = i * 32 + 32;
    bytes_of(text, wide(word_of(own, at + 2)), wide(word_of(own, at + 3)))
}

// Whether the extras have a number i, with this key: lengths are compared before bytes.
pub fn is_at(own: &[u32], text: &[u8], extras: usize, i: usize, key: &[u8]) -> bool
    requires { extras ≤ 65536 }
    ensures i_lt_extras { result ≡ true → i < extras }
    ensures key_value { result ≡ true → same_bytes (stored_key own.now text.now i) (value_text key.now) ≡ true }
{
    if extras <= i {
        return false;
    }
    let stored = stored_key(own, text, i);
    stored.len() == cleaned_length(key) && is_cleaned(stored, key)
}

// The word of the attribute that leads the group of the one at word `at`: `at` itself, or the one that its word tells.
fn lead_of(words: &[u32], first: usize, at: usize) -> usize {
    let mark = wide(word_of(words, at));
    if mark < 2 {
        return at;
    }
    let lead = mark - 2;
    if lead < first {
        return at;
    }
    lead - first
}

// The place that the word of the group's leader tells, or a number that no extra has. Nobody relies on it: who asks compares.
pub fn place_told(words: &[u32], first: usize, at: usize) -> usize {
    let w = wide(word_of(words, lead_of(words, first, at)));
    if w < 2 {
        return 65536;
    }
    w - 2
}

// The word of the group's leader tells a place from now on.
fn tell_place(words: &mut [u32], first: usize, at: usize, place: usize)
    requires { place ≤ 65536 }
    ensures { Quiet words.old words.new }
{
    let lead = lead_of(words, first, at);
    if lead < words.len() {
        words[lead] = (place + 2) as u32;
    }
}

// Where an extra was put behind the others, its place is told.
pub fn note_extra(extras: usize, next: usize, first: usize, at: usize, k: usize, own: &mut [u32])
    requires extras_bound { extras ≤ 65536 }
    requires k_in_bounds { k ≤ length own.old }
    ensures own_unchanged { take k own.new ≡ take k own.old }
    ensures quiet { Quiet (drop k own.old) (drop k own.new) }
{
    if next <= extras {
        return;
    }
    tell_place(&mut own[k..], first, at, extras);
}
