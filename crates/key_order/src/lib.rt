// The order of attributes by their keys: a shorter key first, then by bytes, then by number.
#![tactic(auto)]

ghost use Rattle.std.specs.Prelude.{◌≡◌, ◌≤◌, ◌<◌, ◌+◌, length, take};
ghost use Rattle.table.specs.Event.{key_at};
ghost use Rattle.key_order.specs.inside.KeyOrder.{common_length, comes_in};

use table::the_area::{least, wide};
use table::the_table_parts::{bytes_of, word_of};

// How many bytes the two begin with in common.
pub fn common(a: &[u8], b: &[u8]) -> usize
    ensures { result ≡ common_length a.now b.now }
{
    let n = least(a.len(), b.len());
    for i in 0..n {
        if a[i] != b[i] {
            return i;
        }
    }
    n
}

// The key of attribute j (rule T2).
pub fn key_of<'a>(attributes: &[u32], source: &'a [u8], j: u32) -> &'a [u8]
    ensures { result.now ≡ key_at attributes.now source.now j }
{
    let at = wide(j) * 5;
    bytes_of(
        source,
        wide(word_of(attributes, at + 1)),
        wide(word_of(attributes, at + 2)),
    )
}

// Whether attribute i comes before attribute j, or is it.
pub fn comes(attributes: &[u32], source: &[u8], i: u32, j: u32) -> bool
    ensures { result ≡ comes_in attributes.now source.now i j }
{
    let a = key_of(attributes, source, i);
    let b = key_of(attributes, source, j);
    let n = a.len();
    if n != b.len() {
        return n < b.len();
    }
    let at = common(a, b);
    if at == n {
        return i <= j;
    }
    a[at] < b[at]
}
