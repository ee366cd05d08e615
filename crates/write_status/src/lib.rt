// Properties, outputs and mains, each from its record.
#![tactic(auto)]

ghost use Rattle.std.specs.Prelude.{List, ℕ, ◌≤◌};
ghost use Rattle.write_marks.specs.of_tree_report.Fields as tree;
ghost use Rattle.write_marks.specs.of_tree_report.ReportOf.{pair_of, reason_of};
ghost use Rattle.write_marks.specs.of_write_report.Written.{optional, serialize_output, serialize_outputs, serialize_property, serialize_status};
ghost use Rattle.write_marks.specs.of_write_table.Laid.{items_of};
ghost use Rattle.write_marks.specs.of_write_table.inside.Putting.{Wrote};
ghost use Rattle.write_marks.specs.inside.Kept.{kept};
ghost use Rattle.write_marks.specs.of_write_items.inside.Values.{tag_name};

use names::tag;
use table::kind;
use tree_record::{bit, has_bit, word};
use write_entries::{put_tag, put_text};
use write_marks::Marks;
use write_slots::put_element;

// A gathered text as an element: the text at the words o and o + 1.
fn put_output(
    events: &mut [u32],
    bytes: &mut [u8],
    k: Marks,
    text: &[u8],
    r: &[u32],
    code: u8,
    o: usize,
) -> Marks
    requires { o ≤ 30 }
    ensures { (at : List ℕ) → Wrote (kept k events.old at bytes.old)
        (items_of (serialize_output (tag_name code) (tree.text_at text.now r.now o))) (kept result events.new at bytes.new) }
{
    let opened = put_tag(events, bytes, k, kind::START, code, 0);
    let inner = put_text(events, bytes, opened, text, r, o);
    put_tag(events, bytes, inner, kind::END, code, 0)
}

// The same where the record has it.
pub fn put_optional(
    events: &mut [u32],
    bytes: &mut [u8],
    k: Marks,
    text: &[u8],
    r: &[u32],
    code: u8,
    o: usize,
    b: u32,
) -> Marks
    requires { o ≤ 30 }
    ensures { (at : List ℕ) → Wrote (kept k events.old at bytes.old) (items_of (optional (serialize_output (tag_name code))
        (tree.given (tree.has_bit b r.now) (tree.text_at text.now r.now o)))) (kept result events.new at bytes.new) }
{
    if has_bit(r, b) {
        return put_output(events, bytes, k, text, r, code, o);
    }
    k
}

// system-out and system-err (rule W4).
pub fn put_outputs(events: &mut [u32], bytes: &mut [u8], k: Marks, text: &[u8], r: &[u32]) -> Marks
    ensures { (at : List ℕ) → Wrote (kept k events.old at bytes.old) (items_of (serialize_outputs (tree.system_out text.now r.now)
        (tree.system_err text.now r.now))) (kept result events.new at bytes.new) }
{
    let out = put_optional(
        events,
        bytes,
        k,
        text,
        r,
        tag::SYSTEM_OUT as u8,
        word::OUT,
        bit::OUT,
    );
    put_optional(
        events,
        bytes,
        out,
        text,
        r,
        tag::SYSTEM_ERR as u8,
        word::ERR,
        bit::ERR,
    )
}

// Name and value.
pub fn put_property(
    events: &mut [u32],
    attributes: &mut [u32],
    bytes: &mut [u8],
    k: Marks,
    text: &[u8],
    r: &[u32],
) -> Marks
    ensures { Wrote (kept k events.old attributes.old bytes.old)
        (items_of (serialize_property (pair_of text.now r.now))) (kept result events.new attributes.new bytes.new) }
{
    put_element(
        events,
        attributes,
        bytes,
        k,
        text,
        r,
        kind::EMPTY,
        tag::PROPERTY as u8,
        b"\x01\x0e",
        0,
    )
}

// A main, with message and type: its text is its description (rule W5).
pub fn put_status(
    events: &mut [u32],
    attributes: &mut [u32],
    bytes: &mut [u8],
    k: Marks,
    text: &[u8],
    r: &[u32],
    code: u8,
) -> Marks
    ensures { Wrote (kept k events.old attributes.old bytes.old)
        (items_of (serialize_status (tag_name code) (reason_of text.now r.now))) (kept result events.new attributes.new bytes.new) }
{
    if has_bit(r, bit::DESCRIPTION) {
        let opened = put_element(
            events,
            attributes,
            bytes,
            k,
            text,
            r,
            kind::START,
            code,
            b"\x0c\x0d",
            0,
        );
        let inner = put_text(events, bytes, opened, text, r, word::DESCRIPTION);
        return put_tag(events, bytes, inner, kind::END, code, 0);
    }
    put_element(
        events,
        attributes,
        bytes,
        k,
        text,
        r,
        kind::EMPTY,
        code,
        b"\x0c\x0d",
        0,
    )
}
