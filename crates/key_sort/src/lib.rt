// The attributes of a range, in the order of their keys, or of what would be stored for these where `clean` asks for it, as numbers of
// two bytes in lent bytes: a merge sort whose comparisons are at most n log n, whatever the keys are.
#![tactic(auto)]

pub use clean_order as the_clean_order;
pub use clean_order::{the_area, the_key_order, the_names, the_text, the_text_key};

pub mod number;

ghost use Rattle.std.specs.Prelude.{◌≡◌, ◌+◌, ◌≤◌, length, take, drop};
ghost use Rattle.clean_order.specs.inside.CleanOrder.{ComesBy, comes_by};
ghost use Rattle.key_sort.specs.inside.Arranged.{Arranged};
ghost use Rattle.key_sort.specs.inside.Numbers.{numbers_in};
ghost use Rattle.key_sort.specs.inside.Merged.{takes_first, merged_to};

use crate::number::{number_at, put_number};
use clean_order::comes_by;

// Whether the next of two runs in order, what is left of which stands from i to before h and from j to before n, is the first's.
fn takes_first(
    attributes: &[u32],
    source: &[u8],
    bytes: &[u8],
    i: usize,
    h: usize,
    j: usize,
    n: usize,
    clean: bool,
) -> bool
    requires i_le_h { i ≤ h }
    requires h_le_j { h ≤ j }
    requires j_le_n { j ≤ n }
    requires n_in_bounds { n ≤ length (numbers_in bytes.now) }
    ensures { result ≡ takes_first (comes_by clean attributes.now source.now) (drop i (take h (numbers_in bytes.now))) (drop j (take n (numbers_in bytes.now))) }
{
    if i == h {
        return false;
    }
    if j == n {
        return true;
    }
    comes_by(
        attributes,
        source,
        number_at(bytes, i),
        number_at(bytes, j),
        clean,
    )
}

// The runs in order from 0 to before h and from h to before n become one, from n on.
fn merge_up(attributes: &[u32], source: &[u8], h: usize, n: usize, bytes: &mut [u8], clean: bool)
    requires h_le_n { h ≤ n }
    requires n_in_bounds { n + n ≤ length (numbers_in bytes.old) }
    ensures { take n (drop n (numbers_in bytes.new)) ≡ merged_to (comes_by clean attributes.now source.now) h n (numbers_in bytes.old) }
{
    let mut i = 0;
    let mut j = h;
    for k in n..n + n {
        if takes_first(attributes, source, bytes, i, h, j, n, clean) {
            let v = number_at(bytes, i);
            put_number(bytes, k, v);
            i += 1;
        } else {
            let v = number_at(bytes, j);
            put_number(bytes, k, v);
            j += 1;
        }
    }
}

// The n numbers from n on are put before them.
fn move_down(n: usize, bytes: &mut [u8])
    requires { n + n ≤ length (numbers_in bytes.old) }
    ensures { take n (numbers_in bytes.new) ≡ take n (drop n (numbers_in bytes.old)) }
{
    let start = n + n;
    bytes.copy_within(start..start + start, 0);
}

// The attributes from number `first`, n of them, stand in the first n places afterwards, whatever the bytes held.
pub fn sort(attributes: &[u32], source: &[u8], first: u32, n: usize, bytes: &mut [u8], clean: bool)
    requires n_in_bounds { n + n ≤ length (numbers_in bytes.old) }
    requires n_bound { first + n ≤ 65536 }
    ensures { Arranged (ComesBy clean attributes.now source.now) first n (take n (numbers_in bytes.new)) }
{
    if n < 2 {
        if n == 1 {
            put_number(bytes, 0, first);
        }
        return;
    }
    let h = n / 2;
    let rest = n - h;
    sort(attributes, source, first, h, bytes, clean);
    let at = h + h;
    sort(
        attributes,
        source,
        first + h as u32,
        rest,
        &mut bytes[at..],
        clean,
    );
    merge_up(attributes, source, h, n, bytes, clean);
    move_down(n, bytes);
}
