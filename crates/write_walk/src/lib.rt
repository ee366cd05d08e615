// Along the records behind an element: what belongs to it ends at the next of its level. Level 1 is a suite, 2 a case; at level 0
// nothing ends.
#![tactic(auto)]

ghost use Rattle.std.specs.Prelude.{◌≡◌, ◌&&◌, ◌||◌, ◌*◌, ◌≤◌, length, take, drop, get_or, leb, eqb};
ghost use Rattle.list_sums.specs.inside.Rows.{records_in};
ghost use Rattle.list_sums.specs.of_tree_report.Fields.{kind_of};
ghost use Rattle.write_items.specs.inside.Walk.{ends_at, is_between, own_of, between, first_of};
ghost use Rattle.write_items.specs.inside.Case.{runs_flaky, is_childless};

use list_sums::the_tree_record::{bit, field, has_bit, kind, word};

// The level of what belongs to a case.
const CASE: u32 = 2;

pub fn ends(level: u32, k: u32) -> bool
    ensures { result ≡ ends_at level k }
{
    ((k == kind::SUITE) & (1 <= level)) | ((k == kind::CASE) & (level == 2))
}

pub fn is_between(low: u32, k: u32, high: u32) -> bool
    ensures { result ≡ is_between low high k }
{
    (low <= k) & (k <= high)
}

// Where the first record of these kinds stands, or the words' end.
pub fn seek(words: &[u32], level: u32, low: u32, high: u32) -> usize
    ensures upper_bound { result ≤ length words.now }
    ensures words_value { take 32 (drop result words.now) ≡ first_of (between low high (own_of level (records_in words.now))) }
{
    for i in 0..words.len() / 32 {
        let at = i * 32;
        let here = field(&words[at..at + 32], word::KIND);
        if (here == 0) | ends(level, here) {
            return words.len();
        }
        if is_between(low, here, high) {
            return at;
        }
    }
    words.len()
}

// The kind of the first record of these kinds, 0 where there is none.
pub fn kind_of_first(words: &[u32], level: u32, low: u32, high: u32) -> u32
    ensures { result ≡ kind_of (first_of (between low high (own_of level (records_in words.now)))) }
{
    let at = seek(words, level, low, high);
    field(&words[at..], word::KIND)
}

// How many records have that kind.
pub fn count_kind(words: &[u32], level: u32, k: u32) -> usize
    ensures value { result ≡ length (between k k (own_of level (records_in words.now))) }
    ensures result_in_bounds { result * 32 ≤ length words.now }
{
    let mut n = 0;
    for i in 0..words.len() / 32 {
        let at = i * 32;
        let here = field(&words[at..at + 32], word::KIND);
        if (here == 0) | ends(level, here) {
            return n;
        }
        if is_between(k, here, k) {
            n += 1;
        }
    }
    n
}

// Whether the runs of a main are flaky: by the first of them, and without any by the main's bit.
pub fn is_flaky(r: &[u32], words: &[u32]) -> bool
    ensures { result ≡ runs_flaky r.now (records_in words.now) }
{
    let run = kind_of_first(words, CASE, kind::FLAKY_FAILURE, kind::RERUN_ERROR);
    if run == 0 {
        return has_bit(r, bit::FLAKY);
    }
    run <= kind::FLAKY_ERROR
}

// Whether a case has nothing inside (rule W3).
pub fn is_childless(r: &[u32], words: &[u32]) -> bool
    ensures { result ≡ is_childless r.now (records_in words.now) }
{
    if has_bit(r, bit::OUT) | has_bit(r, bit::ERR) {
        return false;
    }
    let property = kind_of_first(words, CASE, kind::CASE_PROPERTY, kind::CASE_PROPERTY);
    let element = kind_of_first(words, CASE, kind::FAILURE, kind::RERUN_ERROR);
    (property == 0) & (element == 0)
}
