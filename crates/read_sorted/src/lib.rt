// The first repeated key of a range of attributes, found by sorting them in lent bytes: n log n comparisons, whatever the keys are.
#![tactic(auto)]

ghost use Rattle.std.specs.Prelude.{◌≡◌, ◌-◌, ◌*◌, ◌≤◌, length};
ghost use Rattle.key_sort.specs.of_area.Area.{zeros};
ghost use Rattle.key_sort.specs.of_names.Names.{same_bytes};
ghost use Rattle.key_sort.specs.of_table.Event.{key_at};
ghost use Rattle.key_sort.specs.inside.Numbers.{numbers_in};
ghost use Rattle.read_sorted.specs.inside.Repeats.{FirstRepeat, FirstIn, nearer};

use key_sort::number::number_at;
use key_sort::sort;
use key_sort::the_area::{clear, wide};
use key_sort::the_key_order::key_of;
use key_sort::the_names::same;

// The lesser of `found` and attribute j, where j has the key of attribute i.
fn lesser(attributes: &[u32], source: &[u8], i: u32, j: u32, found: usize) -> usize
    ensures { result ≡ nearer (same_bytes (key_at attributes.now source.now i) (key_at attributes.now source.now j)) j found }
{
    let at = wide(j);
    if found <= at {
        return found;
    }
    if same(key_of(attributes, source, i), key_of(attributes, source, j)) {
        return at;
    }
    found
}

// The least of the numbers whose key the number before has, or `end`.
fn first_repeat(attributes: &[u32], source: &[u8], end: usize, bytes: &[u8]) -> usize
    ensures { FirstIn attributes.now source.now (numbers_in bytes.now) end result }
{
    let n = bytes.len() / 2;
    let mut found = end;
    for p in 1..n {
        found = lesser(
            attributes,
            source,
            number_at(bytes, p - 1),
            number_at(bytes, p),
            found,
        );
    }
    found
}

// The bytes have room for each number twice.
fn free_sorted(
    attributes: &[u32],
    source: &[u8],
    first: usize,
    end: usize,
    bytes: &mut [u8],
) -> usize
    requires first_le_end { first ≤ end }
    requires end_bound { end ≤ 65536 }
    requires first_in_bounds { (end - first) * 4 ≤ length bytes.old }
    ensures { FirstRepeat attributes.now source.now first end result }
{
    let n = end - first;
    sort(attributes, source, first as u32, n, bytes, false);
    let e = n + n;
    first_repeat(attributes, source, end, &bytes[..e])
}

// The first attribute whose key an earlier one has (rule A3), or `end`. The bytes are zero afterwards, whatever they held.
pub fn free_by_sort(
    attributes: &[u32],
    source: &[u8],
    first: usize,
    end: usize,
    bytes: &mut [u8],
) -> usize
    requires first_le_end { first ≤ end }
    requires end_bound { end ≤ 65536 }
    requires first_in_bounds { (end - first) * 4 ≤ length bytes.old }
    ensures first_repeat { FirstRepeat attributes.now source.now first end result }
    ensures bytes_after { bytes.new ≡ zeros (length bytes.old) }
{
    let found = free_sorted(attributes, source, first, end, bytes);
    clear(bytes);
    found
}
