// A run, from its record.
#![tactic(auto)]

ghost use Rattle.std.specs.Prelude.{◌≡◌, List, ℕ};
ghost use Rattle.write_marks.specs.of_tree_report.ReportOf.{run_of};
ghost use Rattle.write_marks.specs.of_write_report.Written.{serialize_rerun};
ghost use Rattle.write_marks.specs.of_write_table.Laid.{items_of};
ghost use Rattle.write_marks.specs.of_write_table.inside.Putting.{Wrote};
ghost use Rattle.write_marks.specs.inside.Kept.{kept};
ghost use Rattle.write_marks.specs.of_write_items.inside.Values.{tag_name};
ghost use Rattle.write_marks.specs.of_write_items.inside.Status.{family, run_tag, described_run, traced_run, closed_run};

use names::tag;
use table::kind;
use tree_record::kind::{FLAKY_FAILURE, RERUN_FAILURE};
use tree_record::{bit, field, has_bit, word};
use write_entries::{put_bare, put_tag, put_text};
use write_marks::Marks;
use write_slots::put_element;
use write_status::{put_optional, put_outputs};

// The description, with an Indent behind it where a child follows (rule W7).
fn put_description(events: &mut [u32], bytes: &mut [u8], k: Marks, text: &[u8], r: &[u32]) -> Marks
    ensures { (at : List ℕ)
        → Wrote (kept k events.old at bytes.old) (items_of (described_run text.now r.now)) (kept result events.new at bytes.new) }
{
    if !has_bit(r, bit::DESCRIPTION) {
        return k;
    }
    let inner = put_text(events, bytes, k, text, r, word::DESCRIPTION);
    if has_bit(r, bit::STACK_TRACE) | (has_bit(r, bit::OUT) | has_bit(r, bit::ERR)) {
        return put_bare(events, bytes, inner, kind::INDENT);
    }
    inner
}

fn put_run_text(events: &mut [u32], bytes: &mut [u8], k: Marks, text: &[u8], r: &[u32]) -> Marks
    ensures { (at : List ℕ)
        → Wrote (kept k events.old at bytes.old) (items_of (traced_run text.now r.now)) (kept result events.new at bytes.new) }
{
    let described = put_description(events, bytes, k, text, r);
    put_optional(
        events,
        bytes,
        described,
        text,
        r,
        tag::STACK_TRACE as u8,
        word::STACK_TRACE,
        bit::STACK_TRACE,
    )
}

fn put_run_children(
    events: &mut [u32],
    bytes: &mut [u8],
    k: Marks,
    text: &[u8],
    r: &[u32],
    code: u8,
) -> Marks
    ensures { (at : List ℕ) → Wrote (kept k events.old at bytes.old)
        (items_of (closed_run text.now r.now (tag_name code))) (kept result events.new at bytes.new) }
{
    let traced = put_run_text(events, bytes, k, text, r);
    let outputs = put_outputs(events, bytes, traced, text, r);
    put_tag(events, bytes, outputs, kind::END, code, 0)
}

// flaky_failure, flaky_error, rerun_failure or rerun_error.
fn run_tag(k: u32, flaky: bool) -> u8
    ensures { result ≡ run_tag k flaky }
{
    if (k == FLAKY_FAILURE) | (k == RERUN_FAILURE) {
        return if flaky {
            tag::FLAKY_FAILURE as u8
        } else {
            tag::RERUN_FAILURE as u8
        };
    }
    if flaky {
        tag::FLAKY_ERROR as u8
    } else {
        tag::RERUN_ERROR as u8
    }
}

// With timestamp, time, message and type (rule W6).
pub fn put_run(
    events: &mut [u32],
    attributes: &mut [u32],
    bytes: &mut [u8],
    k: Marks,
    text: &[u8],
    r: &[u32],
    flaky: bool,
) -> Marks
    ensures { Wrote (kept k events.old attributes.old bytes.old)
        (items_of (serialize_rerun (family flaky) (run_of text.now r.now))) (kept result events.new attributes.new bytes.new) }
{
    let code = run_tag(field(r, word::KIND), flaky);
    let opened = put_element(
        events,
        attributes,
        bytes,
        k,
        text,
        r,
        kind::START,
        code,
        b"\x04\x05\x0c\x0d",
        0,
    );
    put_run_children(events, bytes, opened, text, r, code)
}
