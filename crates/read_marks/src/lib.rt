// Which attributes of a range are the first with what would be stored for their keys, told in lent words by sorting in lent bytes.
#![tactic(auto)]

ghost use Rattle.std.specs.Prelude.{◌≡◌, true, cond, ◌&&◌, ◌-◌, ◌*◌, ◌≤◌, ◌<◌, length, set, leb, ltb};
ghost use Rattle.key_sort.specs.of_area.Area.{zeros};
ghost use Rattle.key_sort.specs.of_clean_order.inside.CleanOrder.{ComesBy};
ghost use Rattle.key_sort.specs.inside.Arranged.{Arranged};
ghost use Rattle.key_sort.specs.inside.Numbers.{numbers_in};
ghost use Rattle.read_marks.specs.inside.Marks.{Leads, Marks};

use key_sort::number::number_at;
use key_sort::sort;
use key_sort::the_area::{clear, wide};
use key_sort::the_clean_order::comes_cleaned;
use key_sort::the_key_order::key_of;
use key_sort::the_text::value::check_value;
pub use key_sort::the_text_key;

// Whether number p isn't an attribute with what would be stored for the key of the one before it.
fn is_first(attributes: &[u32], source: &[u8], bytes: &[u8], p: usize) -> bool
    requires { p < length (numbers_in bytes.now) }
    ensures { result ≡ true → Leads attributes.now source.now (numbers_in bytes.now) p }
{
    if p == 0 {
        return true;
    }
    let i = number_at(bytes, p - 1);
    let j = number_at(bytes, p);
    !comes_cleaned(
        key_of(attributes, source, j),
        key_of(attributes, source, i),
        0,
        0,
    )
}

// 1 for the first of its group, else two more than the number of that.
fn mark_of(fresh: bool, lead: u32) -> u32
    requires { lead < 65536 }
    ensures { result ≡ 1 → fresh ≡ true }
{
    if fresh {
        return 1;
    }
    lead + 2
}

// The word of attribute j, which is in the range.
fn put_mark(words: &mut [u32], first: usize, end: usize, j: usize, mark: u32)
    requires { end - first ≤ length words.old }
    ensures { words.new ≡ cond (leb first j && ltb j end) (set words.old (j - first) mark) words.old }
{
    if (first <= j) & (j < end) {
        words[j - first] = mark;
    }
}

// The bytes hold the attributes in order.
fn put_marks(
    attributes: &[u32],
    source: &[u8],
    first: usize,
    end: usize,
    bytes: &[u8],
    words: &mut [u32],
)
    requires first_le_end { first ≤ end }
    requires first_in_bounds { end - first ≤ length words.old }
    requires arranged { Arranged (ComesBy true attributes.now source.now) first (end - first) (numbers_in bytes.now) }
    requires marks { Marks attributes.now source.now first words.old }
    ensures { Marks attributes.now source.now first words.new }
{
    let n = bytes.len() / 2;
    let mut lead = 0;
    for p in 0..n {
        let j = number_at(bytes, p);
        let fresh = is_first(attributes, source, bytes, p);
        if fresh {
            lead = j;
        }
        put_mark(words, first, end, wide(j), mark_of(fresh, lead));
    }
}

// The keys of the attributes before number `end` are good. The bytes are zero afterwards, whatever they held.
fn mark_keys(
    attributes: &[u32],
    source: &[u8],
    first: usize,
    end: usize,
    words: &mut [u32],
    bytes: &mut [u8],
)
    requires first_le_end { first ≤ end }
    requires end_bound { end ≤ 65536 }
    requires first_in_bounds { end - first ≤ length words.old }
    requires first_in_bounds_2 { (end - first) * 4 ≤ length bytes.old }
    requires marks { Marks attributes.now source.now first words.old }
    ensures marks_2 { Marks attributes.now source.now first words.new }
    ensures bytes_after { bytes.new ≡ zeros (length bytes.old) }
{
    let n = end - first;
    sort(attributes, source, first as u32, n, bytes, true);
    let e = n + n;
    put_marks(attributes, source, first, end, &bytes[..e], words);
    clear(bytes);
}

// A number up to which the keys of the attributes from number `first` on are good: cleaning one that isn't may cost the square of its
// bytes, and its attribute is refused.
fn good_to(attributes: &[u32], source: &[u8], first: usize, end: usize) -> usize
    requires first_le_end { first ≤ end }
    requires end_bound { end ≤ 65536 }
    ensures lower_bound { first ≤ result }
    ensures upper_bound { result ≤ end }
{
    for j in first..end {
        if check_value(key_of(attributes, source, j as u32)).is_err() {
            return j;
        }
    }
    end
}

// The word of an attribute becomes 1 where no earlier one of the range would store the same key, else two more than the number of the
// first that would; it stays from the first key on that isn't good. The bytes are zero afterwards, whatever they held.
pub fn mark_range(
    attributes: &[u32],
    source: &[u8],
    first: usize,
    end: usize,
    words: &mut [u32],
    bytes: &mut [u8],
)
    requires first_le_end { first ≤ end }
    requires end_bound { end ≤ 65536 }
    requires first_in_bounds { end - first ≤ length words.old }
    requires first_in_bounds_2 { (end - first) * 4 ≤ length bytes.old }
    requires marks { Marks attributes.now source.now first words.old }
    ensures marks_2 { Marks attributes.now source.now first words.new }
    ensures bytes_after { bytes.new ≡ zeros (length bytes.old) }
{
    let good = good_to(attributes, source, first, end);
    mark_keys(attributes, source, first, good, words, bytes);
}
