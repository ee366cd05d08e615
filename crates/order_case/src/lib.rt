// The cases of a report to order, each from its number and kind.
#![tactic(auto)]

ghost use Rattle.std.specs.Prelude.{List, ◌∷◌, [], ℕ};
ghost use Rattle.write_entries.specs.of_names.Keys as key;
ghost use Rattle.write_entries.specs.of_write_table.Laid.{pair};
ghost use Rattle.write_entries.specs.of_write_table.inside.Putting.{Wrote};
ghost use Rattle.write_entries.specs.of_write_marks.inside.Kept.{kept};
ghost use Rattle.order_report.specs.of_write_items.inside.Values.{key_name};
ghost use Rattle.order_report.specs.Rehearsal.{case_name};
ghost use Rattle.order_report.specs.inside.Items.{opening_items, main_items, flaky_items, case_items};

pub use order_report as the_order_report;
use order_report::Kind;
use write_entries::put_tag;
use write_entries::the_names::{key, tag};
use write_entries::the_table::kind::{EMPTY, END, START};
use write_entries::the_write_marks::{Marks, store_attribute};
use write_entries::the_write_tags::put_quote;
use write_entries::the_write_values::put_key;

// By rule O4; no byte of such a name is escaped.
fn put_name(attributes: &mut [u32], bytes: &mut [u8], k: Marks, i: u64) -> Marks
    ensures { (ev : List ℕ) → Wrote (kept k ev attributes.old bytes.old)
        (pair (key_name key.name) (case_name i) ∷ []) (kept result ev attributes.new bytes.new) }
{
    let from = k.bytes;
    let middle = put_key(bytes, from, k.form, key::NAME as u8);
    let front = write_entries::the_list_text::put(bytes, middle, b"case");
    let value = write_entries::the_list_text::put_decimal(bytes, front, i);
    let to = put_quote(bytes, value, k.form);
    store_attribute(attributes, k, middle, to)
}

// A case's Start, or the Empty of a plain one.
fn put_opening(
    events: &mut [u32],
    attributes: &mut [u32],
    bytes: &mut [u8],
    k: Marks,
    kind: u32,
    i: u64,
) -> Marks
    ensures { Wrote (kept k events.old attributes.old bytes.old)
        (opening_items kind i) (kept result events.new attributes.new bytes.new) }
{
    let opened = put_tag(events, bytes, k, kind, tag::TESTCASE as u8, 1);
    put_name(attributes, bytes, opened, i)
}

// A case with a failure, an error or a skip, by the code of its tag.
fn put_main(
    events: &mut [u32],
    attributes: &mut [u32],
    bytes: &mut [u8],
    k: Marks,
    i: u64,
    code: u8,
) -> Marks
    ensures { Wrote (kept k events.old attributes.old bytes.old)
        (main_items code i) (kept result events.new attributes.new bytes.new) }
{
    let opened = put_opening(events, attributes, bytes, k, START, i);
    let main = put_tag(events, bytes, opened, EMPTY, code, 0);
    put_tag(events, bytes, main, END, tag::TESTCASE as u8, 0)
}

// A case with one flaky failure: a run is Start and End, also without children (rule W6).
fn put_flaky(
    events: &mut [u32],
    attributes: &mut [u32],
    bytes: &mut [u8],
    k: Marks,
    i: u64,
) -> Marks
    ensures { Wrote (kept k events.old attributes.old bytes.old)
        (flaky_items i) (kept result events.new attributes.new bytes.new) }
{
    let opened = put_opening(events, attributes, bytes, k, START, i);
    let run = put_tag(events, bytes, opened, START, tag::FLAKY_FAILURE as u8, 0);
    let ended = put_tag(events, bytes, run, END, tag::FLAKY_FAILURE as u8, 0);
    put_tag(events, bytes, ended, END, tag::TESTCASE as u8, 0)
}

// By rules O4 and O5.
pub fn put_case(
    events: &mut [u32],
    attributes: &mut [u32],
    bytes: &mut [u8],
    k: Marks,
    i: u64,
    kind: Kind,
) -> Marks
    ensures { Wrote (kept k events.old attributes.old bytes.old)
        (case_items i kind) (kept result events.new attributes.new bytes.new) }
{
    match kind {
        Kind::Failure => put_main(events, attributes, bytes, k, i, tag::FAILURE as u8),
        Kind::Error => put_main(events, attributes, bytes, k, i, tag::ERROR as u8),
        Kind::Skipped => put_main(events, attributes, bytes, k, i, tag::SKIPPED as u8),
        Kind::Flaky => put_flaky(events, attributes, bytes, k, i),
        Kind::Plain => put_opening(events, attributes, bytes, k, EMPTY, i),
    }
}
