// The report, from its record and the words behind it.
#![tactic(auto)]

ghost use Rattle.std.specs.Prelude.{List, ℕ};
ghost use Rattle.list_sums.specs.inside.Rows.{records_in};
ghost use Rattle.write_marks.specs.of_write_table.inside.Putting.{Wrote};
ghost use Rattle.write_marks.specs.inside.Kept.{kept};
ghost use Rattle.write_marks.specs.of_write_items.inside.Document.{head_items, tail_items, document_items, document_in};

use list_sums::rows::stands_here;
pub use list_sums::the_list_text;
pub use names as the_names;
use names::tag;
pub use table as the_table;
use table::kind::{END, EOF, INDENT, START};
use tree_record::{field, kind, word};
pub use write_entries as the_write_entries;
pub use write_entries::{the_write_tags, the_write_values};
use write_entries::{put_bare, put_declaration, put_tag};
pub use write_marks as the_write_marks;
use write_marks::Marks;
use write_slots::put_element;
use write_suite::put_suites;

// The declaration, and the report's tag with name, tests, skipped, failures, errors, disabled, uuid, timestamp and time.
fn put_head(
    events: &mut [u32],
    attributes: &mut [u32],
    bytes: &mut [u8],
    k: Marks,
    text: &[u8],
    r: &[u32],
) -> Marks
    ensures { Wrote (kept k events.old attributes.old bytes.old)
        (head_items text.now r.now) (kept result events.new attributes.new bytes.new) }
{
    let declared = put_declaration(events, bytes, k);
    put_element(
        events,
        attributes,
        bytes,
        declared,
        text,
        r,
        START,
        tag::TESTSUITES as u8,
        b"\x10\x06\x09\x07\x08\x0a\x03\x04\x05",
        0,
    )
}

// The report's End, Eof and Indent (rule W7).
pub fn put_tail(events: &mut [u32], bytes: &mut [u8], k: Marks) -> Marks
    ensures { (at : List ℕ) → Wrote (kept k events.old at bytes.old) tail_items (kept result events.new at bytes.new) }
{
    let closed = put_tag(events, bytes, k, END, tag::TESTSUITES as u8, 0);
    let ended = put_bare(events, bytes, closed, EOF);
    put_bare(events, bytes, ended, INDENT)
}

fn put_whole(
    events: &mut [u32],
    attributes: &mut [u32],
    bytes: &mut [u8],
    k: Marks,
    text: &[u8],
    r: &[u32],
    below: &[u32],
) -> Marks
    ensures { Wrote (kept k events.old attributes.old bytes.old)
        (document_items text.now r.now (records_in below.now)) (kept result events.new attributes.new bytes.new) }
{
    let head = put_head(events, attributes, bytes, k, text, r);
    let suites = put_suites(events, attributes, bytes, head, text, below);
    put_tail(events, bytes, suites)
}

// By rule W1. The report is the first live record; there is one in every layout.
pub fn put_document(
    events: &mut [u32],
    attributes: &mut [u32],
    bytes: &mut [u8],
    k: Marks,
    text: &[u8],
    words: &[u32],
) -> Marks
    ensures { Wrote (kept k events.old attributes.old bytes.old)
        (document_in text.now (records_in words.now)) (kept result events.new attributes.new bytes.new) }
{
    let mut at = 0;
    while stands_here(&words[at..]) {
        let end = at + 32;
        let r = &words[at..end];
        at = end;
        if field(r, word::KIND) < kind::DEAD {
            return put_whole(events, attributes, bytes, k, text, r, &words[end..]);
        }
    }
    k
}
