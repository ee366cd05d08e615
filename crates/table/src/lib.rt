// The event table that a caller hands in: refusal 11, which looks at the sizes and then event by event.
#![tactic(auto)]

ghost use Rattle.std.specs.Prelude.{◌≡◌, ◌-◌, ◌*◌, ◌/◌, ◌≤◌, ◌<◌, length, MatchResult, Ok, Err};
ghost use Rattle.table.specs.Table.{good_attribute, good_shape, good_sizes, bad_from, check_event, checked_answer, table_of};

pub use table_parts as the_table_parts;
pub use table_parts::{the_area, the_refusal};

pub mod kind;

use std::ops::Range;
use table_parts::is_within;
use table_parts::the_area::{limit, wide};
use table_parts::the_refusal::NOWHERE;

// By rule T12.
fn is_attribute(words: &[u32], size: usize) -> bool
    requires { 5 ≤ length words.now }
    ensures { result ≡ good_attribute words.now size }
{
    (words[0] <= 1) & (is_within(size, words[1], words[2]) & is_within(size, words[3], words[4]))
}

// By rules T9 to T11.
fn is_shape(words: &[u32], n: usize, size: usize) -> bool
    requires { 5 ≤ length words.now }
    ensures { result ≡ good_shape words.now n size }
{
    (words[0] <= kind::INDENT)
        & (is_within(size, words[1], words[2])
            & ((words[4] == 0) | ((words[0] <= kind::EMPTY) & is_within(n, words[3], words[4]))))
}

// The first bad attribute from number `first` to before number `end`, or `end` (rule T12).
fn first_bad(attributes: &[u32], first: usize, end: usize, size: usize) -> usize
    requires { (first ≤ end) × (end * 5 ≤ length attributes.now) }
    ensures { result ≡ bad_from attributes.now size (end - first) first }
{
    for j in first..end {
        if !is_attribute(&attributes[j * 5..], size) {
            return j;
        }
    }
    end
}

// Event i with its attributes (rules T12 and F10): a range of attributes that are good, or where the event isn't. Events may share
// attributes: those within `known`, which are good, are not looked at again.
fn check_event(
    events: &[u32],
    attributes: &[u32],
    size: usize,
    i: usize,
    known: Range<usize>,
) -> Result<Range<usize>, (u32, u32)>
    requires i_in_bounds { (i < length events.now / 5) × (i < 65536) × (length attributes.now / 5 ≤ 65536) }
    requires known_good { bad_from attributes.now size (known.end - known.start) known.start ≡ known.end }
    ensures { MatchResult result
        (λ good. (Ok tt ≡ check_event events.now attributes.now size i) × (bad_from attributes.now size (good.end - good.start) good.start ≡ good.end))
        (λ bad. Err bad ≡ check_event events.now attributes.now size i) }
{
    let words = &events[i * 5..];
    let n = attributes.len() / 5;
    if !is_shape(words, n, size) {
        return Err((i as u32, NOWHERE));
    }
    let first = wide(words[3]);
    let count = wide(words[4]);
    let end = first + count;
    if (count == 0) | ((known.start <= first) & (end <= known.end)) {
        return Ok(known);
    }
    let bad = first_bad(attributes, first, end, size);
    if bad < end {
        return Err((i as u32, bad as u32));
    }
    Ok(first..end)
}

// By rules T7 and T8.
fn is_sized(events: usize, attributes: usize, size: usize) -> bool
    ensures { result ≡ good_sizes events attributes size }
{
    ((events % 5 == 0) & (attributes % 5 == 0))
        & ((events / 5 <= limit::ENTRIES)
            & ((attributes / 5 <= limit::ENTRIES) & (size <= limit::BYTES)))
}

// Whether a table is good, or where it is not: the event and the attribute, 4294967295 where none is concerned (rule T6).
pub fn check_table(events: &[u32], attributes: &[u32], source: &[u8]) -> Result<(), (u32, u32)>
    ensures { checked_answer result ≡ table_of events.now attributes.now source.now }
{
    let size = source.len();
    if !is_sized(events.len(), attributes.len(), size) {
        return Err((NOWHERE, NOWHERE));
    }
    let mut known = 0..0;
    for i in 0..events.len() / 5 {
        known = check_event(events, attributes, size, i, known)?;
    }
    Ok(())
}
