// How far the keys of a range of attributes are known to be free of repeats: by chains in lent words, by sorting in lent bytes, not by
// comparing all pairs.
#![tactic(auto)]

ghost use Rattle.std.specs.Prelude.{◌≡◌, ◌-◌, ◌*◌, ◌≤◌, ◌<◌, length};
ghost use Rattle.read_chains.specs.of_area.Area.{zeros};
ghost use Rattle.read_free.specs.inside.Unrepeated.{Unrepeated, room_of};

pub use read_chains as the_read_chains;
use read_chains::enter;
use read_chains::the_area::{clear_words, least};
use read_sorted::free_by_sort;

const FEW: usize = 8;

const MOST: usize = 65536;

// A longer chain has too many keys for chance where there are as many buckets as keys.
const LONGEST: usize = 16;

// How far a chain is followed: to its end where there is no room for sorting.
fn longest_of(sorts: bool) -> usize {
    if sorts { LONGEST } else { MOST }
}

// How many of the words lent the chains of n keys take: a link for each key, and a bucket for each, or as many as there is room
// for. None where the keys are few, or the words.
fn room_of(n: usize, lent: usize) -> usize
    ensures { result ≡ room_of n lent }
{
    if (n <= FEW) | ((MOST < n) | (lent <= n)) {
        return 0;
    }
    least(n + n, lent)
}

// The words, which are zero, have room for a link for each key and for at least one bucket. A chain with more than `longest` keys
// ends it.
fn free_chained(
    attributes: &[u32],
    source: &[u8],
    first: usize,
    end: usize,
    longest: usize,
    work: &mut [u32],
) -> usize
    requires first_le_end { first ≤ end }
    requires end_in_bounds { end * 5 ≤ length attributes.now }
    requires first_bound { end - first ≤ 65536 }
    requires first_in_bounds { end - first < length work.old }
    requires work_value { work.old ≡ zeros (length work.old) }
    ensures { Unrepeated attributes.now source.now first result }
{
    let m = work.len() - (end - first);
    for j in first..end {
        if enter(attributes, source, first, j, m, longest, work) {
            return j;
        }
    }
    end
}

// The words are zero again afterwards.
fn free_by_chains(
    attributes: &[u32],
    source: &[u8],
    first: usize,
    end: usize,
    longest: usize,
    work: &mut [u32],
) -> usize
    requires first_le_end { first ≤ end }
    requires end_in_bounds { end * 5 ≤ length attributes.now }
    requires first_bound { end - first ≤ 65536 }
    requires first_in_bounds { end - first < length work.old }
    requires work_value { work.old ≡ zeros (length work.old) }
    ensures unrepeated { Unrepeated attributes.now source.now first result }
    ensures work_after { work.new ≡ zeros (length work.old) }
{
    let found = free_chained(attributes, source, first, end, longest, work);
    clear_words(work);
    found
}

// By chains, as far as these go; `first` where the words are too few for them.
fn free_in_words(
    attributes: &[u32],
    source: &[u8],
    first: usize,
    end: usize,
    longest: usize,
    work: &mut [u32],
) -> usize
    requires first_le_end { first ≤ end }
    requires end_in_bounds { end * 5 ≤ length attributes.now }
    requires work_value { work.old ≡ zeros (length work.old) }
    ensures unrepeated { Unrepeated attributes.now source.now first result }
    ensures work_after { work.new ≡ zeros (length work.old) }
{
    let room = room_of(end - first, work.len());
    if room == 0 {
        return first;
    }
    free_by_chains(attributes, source, first, end, longest, &mut work[..room])
}

// A number up to which no two attributes from number `first` on have the same key (rule A3): that of the first whose key an earlier
// one has, or `end`; or `first`, where nothing was looked for. Where chains don't reach the end, the keys are sorted in four bytes for
// each. Where words and bytes are both too few, each key is compared with those before it as its attribute is read. The words and bytes
// lent are zero, and are so again afterwards.
pub fn free_to(
    attributes: &[u32],
    source: &[u8],
    first: usize,
    end: usize,
    work: &mut [u32],
    spare: &mut [u8],
) -> usize
    requires first_le_end { first ≤ end }
    requires end_in_bounds { end * 5 ≤ length attributes.now }
    requires end_bound { end ≤ 65536 }
    requires work_value { work.old ≡ zeros (length work.old) }
    requires spare_value { spare.old ≡ zeros (length spare.old) }
    ensures unrepeated { Unrepeated attributes.now source.now first result }
    ensures work_after { work.new ≡ zeros (length work.old) }
    ensures spare_after { spare.new ≡ zeros (length spare.old) }
{
    let n = end - first;
    let e = n * 4;
    let sorts = (FEW < n) & (e <= spare.len());
    let longest = longest_of(sorts);
    let found = free_in_words(attributes, source, first, end, longest, work);
    if (found == end) | !sorts {
        return found;
    }
    free_by_sort(attributes, source, first, end, &mut spare[..e])
}
