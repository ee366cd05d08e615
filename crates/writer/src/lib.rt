// The events that a layout's report is written as: serialize.rs, into three areas that the caller lends.
#![tactic(auto)]

ghost use Rattle.std.specs.Prelude.{◌≡◌, length};
ghost use Rattle.refusal.specs.Refusal.{refused, late};
ghost use Rattle.write_answer.specs.of_write_table.Laid.{items_of};
ghost use Rattle.write_answer.specs.of_write_table.inside.Putting.{Wrote};
ghost use Rattle.write_marks.specs.inside.Kept.{empty, kept};
ghost use Rattle.write_answer.specs.Answer.{events_of, wrote, events_left, attributes_left, bytes_left};
ghost use Rattle.writer.specs.Answer.{writing_from};

pub use area as the_area;
use area::{least, limit};
pub use clearing as the_clearing;
use clearing::clear_table;
pub use refusal as the_refusal;
use refusal::{Cause, Refusal, Verdict, no_refusal, refuse_late};
pub use tree_layout as the_tree_layout;
pub use write_document as the_write_document;
use write_document::put_document;
pub use write_form as the_write_form;
use write_form::form;
pub use write_marks as the_write_marks;
use write_marks::Marks;

// How many events, attributes and bytes the table has, or why there is none.
#[derive(Clone, Copy)]
pub struct Writing {
    pub verdict: Verdict,
    pub events: usize,
    pub attributes: usize,
    pub bytes: usize,
    pub refusal: Refusal,
}

pub fn refuse(cause: Cause) -> Writing
    ensures { result ≡ writing_from (refused (late cause)) }
{
    Writing {
        verdict: Verdict::Refused,
        events: 0,
        attributes: 0,
        bytes: 0,
        refusal: refuse_late(cause),
    }
}

// Puts the events of the report that the records and the text hold (rule W14).
fn put_tree(
    records: &[u32],
    text: &[u8],
    events: &mut [u32],
    attributes: &mut [u32],
    bytes: &mut [u8],
) -> Marks
    ensures { Wrote (kept empty events.old attributes.old bytes.old)
        (items_of (events_of records.now text.now)) (kept result events.new attributes.new bytes.new) }
{
    let limit = least(records.len(), limit::WORDS);
    let used = least(text.len(), limit::BYTES);
    let start = Marks {
        events: 0,
        attributes: 0,
        form: form::TABLE,
        level: 0,
        bytes: Some(0),
    };
    put_document(
        events,
        attributes,
        bytes,
        start,
        &text[..used],
        &records[..limit],
    )
}

// Puts the table at the front of the three areas, and zeros behind it; at a refusal all of them becomes zero (rule W13). What it
// writes of a plain report is read back (rule W16).
pub fn write(
    records: &[u32],
    text: &[u8],
    events: &mut [u32],
    attributes: &mut [u32],
    bytes: &mut [u8],
) -> Writing
    ensures value { result ≡ writing_from (wrote records.now text.now (length events.old) (length attributes.old) (length bytes.old)) }
    ensures events_after { events.new ≡ events_left records.now text.now (length events.old) (length attributes.old) (length bytes.old) }
    ensures attributes_after { attributes.new ≡ attributes_left records.now text.now (length events.old) (length attributes.old) (length bytes.old) }
    ensures bytes_after { bytes.new ≡ bytes_left records.now text.now (length events.old) (length attributes.old) (length bytes.old) }
{
    clear_table(events, attributes, bytes);
    if !tree_layout::is_layout(records, text) {
        return refuse(Cause::NotLayout);
    }
    let k = put_tree(records, text, events, attributes, bytes);
    let mark = k.bytes;
    let Some(n) = mark else {
        clear_table(events, attributes, bytes);
        return refuse(Cause::OutputFull);
    };
    let m = k.events as usize;
    let a = k.attributes as usize;
    Writing {
        verdict: Verdict::Accepted,
        events: m,
        attributes: a,
        bytes: n,
        refusal: no_refusal(),
    }
}
