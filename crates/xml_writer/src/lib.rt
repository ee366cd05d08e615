// A report's XML document: the events that it is written as, spelled out in an area that the caller lends.
#![tactic(auto)]

ghost use Rattle.std.specs.Prelude.{◌≡◌, length};
ghost use Rattle.writer.specs.of_refusal.Refusal.{refused, late};
ghost use Rattle.writer.specs.of_write_table.Laid.{items_of};
ghost use Rattle.writer.specs.of_write_answer.Answer.{events_of};
ghost use Rattle.xml_answer.specs.Answer.{wrote_xml, document_left};
ghost use Rattle.xml_writer.specs.Answer.{document_from};
ghost use Rattle.xml_writer.specs.inside.Put.{Put};

pub use writer as the_writer;
use writer::the_area::{clear, least, limit};
use writer::the_refusal::{Cause, Refusal, Verdict, no_refusal, refuse_late};
use writer::the_write_document::put_document;
use writer::the_write_form::form;
use writer::the_write_marks::Marks;
pub use writer::{the_refusal, the_tree_layout};

// How many bytes the document has, or why there is none.
#[derive(Clone, Copy)]
pub struct Document {
    pub verdict: Verdict,
    pub length: usize,
    pub refusal: Refusal,
}

fn refuse(cause: Cause) -> Document
    ensures { result ≡ document_from (refused (late cause)) }
{
    Document {
        verdict: Verdict::Refused,
        length: 0,
        refusal: refuse_late(cause),
    }
}

// Puts the bytes of the report that the records and the text hold; the XML form has no use for areas of events and attributes.
fn put_tree(records: &[u32], text: &[u8], out: &mut [u8]) -> Marks
    ensures { Put out.old (items_of (events_of records.now text.now)) result out.new }
{
    let limit = least(records.len(), limit::WORDS);
    let used = least(text.len(), limit::BYTES);
    let start = Marks {
        events: 0,
        attributes: 0,
        form: form::FREE,
        level: 0,
        bytes: Some(0),
    };
    let mut events = [0u32; 1];
    let mut attributes = [0u32; 1];
    put_document(
        &mut events,
        &mut attributes,
        out,
        start,
        &text[..used],
        &records[..limit],
    )
}

// Puts the document at the front of `out`, and zeros behind it; at a refusal all of it becomes zero (rule W20).
pub fn write_xml(records: &[u32], text: &[u8], out: &mut [u8]) -> Document
    ensures value { result ≡ document_from (wrote_xml records.now text.now (length out.old)) }
    ensures out_after { out.new ≡ document_left records.now text.now (length out.old) }
{
    clear(out);
    if !writer::the_tree_layout::is_layout(records, text) {
        return refuse(Cause::NotLayout);
    }
    let used = least(out.len(), limit::BYTES);
    let k = put_tree(records, text, &mut out[..used]);
    let mark = k.bytes;
    let Some(length) = mark else {
        clear(out);
        return refuse(Cause::OutputFull);
    };
    Document {
        verdict: Verdict::Accepted,
        length,
        refusal: no_refusal(),
    }
}
