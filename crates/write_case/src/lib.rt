// A case, from its record and the words behind it.
#![tactic(auto)]

ghost use Rattle.std.specs.Prelude.{◌≡◌};
ghost use Rattle.write_walk.specs.of_list_sums.inside.Rows.{records_in};
ghost use Rattle.write_marks.specs.of_write_table.inside.Putting.{Wrote};
ghost use Rattle.write_marks.specs.inside.Kept.{kept};
ghost use Rattle.write_walk.specs.of_write_items.inside.Case.{opening_items, inside_items, case_items};

use names::tag;
use table::kind::{EMPTY, START};
use tree_record::kind;
use write_elements::{put_closing, put_elements, put_properties};
use write_marks::Marks;
use write_rows::put_rows;
use write_slots::put_element;
use write_walk::{count_kind, is_childless};

// The level of what belongs to a case (write_walk).
const CASE: u32 = 2;

// A case's tag with name, classname, assertions, timestamp and time, and its extras (rule W2).
fn put_opening(
    events: &mut [u32],
    attributes: &mut [u32],
    bytes: &mut [u8],
    k: Marks,
    text: &[u8],
    r: &[u32],
    words: &[u32],
    opens: u32,
) -> Marks
    ensures { Wrote (kept k events.old attributes.old bytes.old)
        (opening_items text.now r.now (records_in words.now) opens) (kept result events.new attributes.new bytes.new) }
{
    let extras = count_kind(words, CASE, kind::CASE_EXTRA);
    let opened = put_element(
        events,
        attributes,
        bytes,
        k,
        text,
        r,
        opens,
        tag::TESTCASE as u8,
        b"\x01\x02\x0b\x04\x05",
        extras,
    );
    put_rows(
        events,
        attributes,
        bytes,
        opened,
        text,
        words,
        CASE,
        kind::CASE_EXTRA,
        kind::CASE_EXTRA,
        false,
    )
}

fn put_inside(
    events: &mut [u32],
    attributes: &mut [u32],
    bytes: &mut [u8],
    k: Marks,
    text: &[u8],
    words: &[u32],
) -> Marks
    ensures { Wrote (kept k events.old attributes.old bytes.old)
        (inside_items text.now (records_in words.now)) (kept result events.new attributes.new bytes.new) }
{
    let properties = put_properties(
        events,
        attributes,
        bytes,
        k,
        text,
        words,
        CASE,
        kind::CASE_PROPERTY,
    );
    put_elements(events, attributes, bytes, properties, text, words)
}

// By rule W3.
pub fn put_case(
    events: &mut [u32],
    attributes: &mut [u32],
    bytes: &mut [u8],
    k: Marks,
    text: &[u8],
    r: &[u32],
    words: &[u32],
) -> Marks
    ensures { Wrote (kept k events.old attributes.old bytes.old)
        (case_items text.now r.now (records_in words.now)) (kept result events.new attributes.new bytes.new) }
{
    if is_childless(r, words) {
        return put_opening(events, attributes, bytes, k, text, r, words, EMPTY);
    }
    let opened = put_opening(events, attributes, bytes, k, text, r, words, START);
    let inside = put_inside(events, attributes, bytes, opened, text, words);
    put_closing(events, bytes, inside, text, r, tag::TESTCASE as u8)
}
