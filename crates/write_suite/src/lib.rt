// Suites, from their records and the words behind them.
#![tactic(auto)]

ghost use Rattle.std.specs.Prelude.{◌≡◌};
ghost use Rattle.list_sums.specs.inside.Rows.{records_in};
ghost use Rattle.write_marks.specs.of_write_table.inside.Putting.{Wrote};
ghost use Rattle.write_marks.specs.inside.Kept.{kept};
ghost use Rattle.write_walk.specs.of_write_items.inside.Suite.{cases_items, opening_items, inside_items, is_childless, suite_items, suites_items};

use list_sums::rows::stands_here;
use names::tag;
use table::kind::{EMPTY, START};
use tree_record::{bit, field, has_bit, kind, word};
use write_case::put_case;
use write_elements::{put_closing, put_properties};
use write_marks::{Marks, is_open};
use write_rows::put_rows;
use write_slots::put_element;
use write_walk::{count_kind, kind_of_first};

// The level of what belongs to a suite (write_walk).
const SUITE: u32 = 1;

// The cases of the suite that stands before these words.
fn put_cases(
    events: &mut [u32],
    attributes: &mut [u32],
    bytes: &mut [u8],
    k: Marks,
    text: &[u8],
    words: &[u32],
) -> Marks
    ensures { Wrote (kept k events.old attributes.old bytes.old)
        (cases_items text.now (records_in words.now)) (kept result events.new attributes.new bytes.new) }
{
    let mut at = 0;
    let mut mark = k;
    while is_open(mark) & stands_here(&words[at..]) {
        let end = at + 32;
        let r = &words[at..end];
        let here = field(r, word::KIND);
        at = end;
        if here == kind::SUITE {
            return mark;
        }
        if here == kind::CASE {
            mark = put_case(events, attributes, bytes, mark, text, r, &words[end..]);
        }
    }
    mark
}

fn is_childless(r: &[u32], words: &[u32]) -> bool
    ensures { result ≡ is_childless r.now (records_in words.now) }
{
    if has_bit(r, bit::OUT) | has_bit(r, bit::ERR) {
        return false;
    }
    let property = kind_of_first(words, SUITE, kind::SUITE_PROPERTY, kind::SUITE_PROPERTY);
    let case = kind_of_first(words, SUITE, kind::CASE, kind::CASE);
    (property == 0) & (case == 0)
}

// A suite's tag with name, tests, skipped, errors, failures, disabled, timestamp, time and hostname, and its extras (rule W2).
fn put_opening(
    events: &mut [u32],
    attributes: &mut [u32],
    bytes: &mut [u8],
    k: Marks,
    text: &[u8],
    r: &[u32],
    words: &[u32],
    opens: u32,
) -> Marks
    ensures { Wrote (kept k events.old attributes.old bytes.old)
        (opening_items text.now r.now (records_in words.now) opens) (kept result events.new attributes.new bytes.new) }
{
    let extras = count_kind(words, SUITE, kind::SUITE_EXTRA);
    let opened = put_element(
        events,
        attributes,
        bytes,
        k,
        text,
        r,
        opens,
        tag::TESTSUITE as u8,
        b"\x01\x06\x09\x08\x07\x0a\x04\x05\x0f",
        extras,
    );
    put_rows(
        events,
        attributes,
        bytes,
        opened,
        text,
        words,
        SUITE,
        kind::SUITE_EXTRA,
        kind::SUITE_EXTRA,
        false,
    )
}

fn put_inside(
    events: &mut [u32],
    attributes: &mut [u32],
    bytes: &mut [u8],
    k: Marks,
    text: &[u8],
    words: &[u32],
) -> Marks
    ensures { Wrote (kept k events.old attributes.old bytes.old)
        (inside_items text.now (records_in words.now)) (kept result events.new attributes.new bytes.new) }
{
    let properties = put_properties(
        events,
        attributes,
        bytes,
        k,
        text,
        words,
        SUITE,
        kind::SUITE_PROPERTY,
    );
    put_cases(events, attributes, bytes, properties, text, words)
}

// By rule W3.
fn put_suite(
    events: &mut [u32],
    attributes: &mut [u32],
    bytes: &mut [u8],
    k: Marks,
    text: &[u8],
    r: &[u32],
    words: &[u32],
) -> Marks
    ensures { Wrote (kept k events.old attributes.old bytes.old)
        (suite_items text.now r.now (records_in words.now)) (kept result events.new attributes.new bytes.new) }
{
    if is_childless(r, words) {
        return put_opening(events, attributes, bytes, k, text, r, words, EMPTY);
    }
    let opened = put_opening(events, attributes, bytes, k, text, r, words, START);
    let inside = put_inside(events, attributes, bytes, opened, text, words);
    put_closing(events, bytes, inside, text, r, tag::TESTSUITE as u8)
}

pub fn put_suites(
    events: &mut [u32],
    attributes: &mut [u32],
    bytes: &mut [u8],
    k: Marks,
    text: &[u8],
    words: &[u32],
) -> Marks
    ensures { Wrote (kept k events.old attributes.old bytes.old)
        (suites_items text.now (records_in words.now)) (kept result events.new attributes.new bytes.new) }
{
    let mut at = 0;
    let mut mark = k;
    while is_open(mark) & stands_here(&words[at..]) {
        let end = at + 32;
        let r = &words[at..end];
        at = end;
        if field(r, word::KIND) == kind::SUITE {
            mark = put_suite(events, attributes, bytes, mark, text, r, &words[end..]);
        }
    }
    mark
}
