// Tables read, listed, written and made to order.
ghost use Rattle.std.specs.Prelude.{◌≡◌, min, length};
ghost use Rattle.case_tags.specs.of_refusal.declared.Cause.TheVariants as cause;
ghost use Rattle.case_tags.specs.of_area.Area.{zeros, laid, placing};
ghost use Rattle.explain.specs.of_time_text.Written.{written_time, count, whole};
ghost use Rattle.explain.specs.of_tree_report.Layout.{layout};
ghost use Rattle.explain_xml.specs.of_list_text.Listing.{listed, output_of};
ghost use Rattle.xml_writer.specs.of_write_answer.Answer.{wrote, events_left, attributes_left, bytes_left};
ghost use Rattle.rehearsal.specs.of_order_report.Rehearsal.{order_of};
ghost use Rattle.rehearsal.specs.of_order_report.Answer.{ordered, events_ordered, attributes_ordered, bytes_ordered};
ghost use Rattle.xml_writer.specs.of_xml_answer.Answer.{wrote_xml, document_left};
ghost use Rattle.xml_call.specs.of_public_call.Called.{read_into, once_into, listing_into};
ghost use Rattle.explain.specs.of_explain_text.Explanation.{explained, explanation_in};
ghost use Rattle.port_values.specs.of_port_refusal.Port.{port_outcome};
ghost use Rattle.port_values.specs.of_port_refusal.Back.{plain_refusal};
ghost use Rattle.port_c.specs.Answers.{listing_port, writing_port, document_port, explained_port};

use port_values::the_port_refusal::{KRefusal, from_refusal, to_refusal};

// The length is 0 where the call refuses.
#[repr(C)]
#[derive(Clone, Copy)]
pub struct KListing {
    pub length: usize,
    pub refusal: KRefusal,
}

// All are 0 where the call refuses.
#[repr(C)]
#[derive(Clone, Copy)]
pub struct KWriting {
    pub events: usize,
    pub attributes: usize,
    pub bytes: usize,
    pub refusal: KRefusal,
}

// The length is 0 where the call refuses.
#[repr(C)]
#[derive(Clone, Copy)]
pub struct KDocument {
    pub length: usize,
    pub refusal: KRefusal,
}

// The length is 0 where the line doesn't fit.
#[repr(C)]
#[derive(Clone, Copy)]
pub struct KExplained {
    pub length: usize,
    pub refusal: KRefusal,
}

#[unsafe(no_mangle)]
pub extern "C" fn kerzhoma_read(
    events: &[u32],
    attributes: &[u32],
    source: &[u8],
    records: &mut [u32],
    text: &mut [u8],
    scratch: &mut [u8],
) -> KRefusal
    ensures value { result ≡ port_outcome (read_into events.now attributes.now source.now records.old text.old scratch.old).outcome }
    ensures records_after { records.new ≡ (read_into events.now attributes.now source.now records.old text.old scratch.old).words }
    ensures text_after { text.new ≡ (read_into events.now attributes.now source.now records.old text.old scratch.old).text }
    ensures scratch_after { scratch.new ≡ (read_into events.now attributes.now source.now records.old text.old scratch.old).scratch }
{
    let answer = xml_call::the_reader::read(events, attributes, source, records, text, scratch);
    let verdict = answer.verdict;
    let refusal = answer.refusal;
    from_refusal(verdict, refusal)
}

#[unsafe(no_mangle)]
pub extern "C" fn kerzhoma_list(records: &[u32], text: &[u8], out: &mut [u8]) -> KListing
    ensures value { result ≡ listing_port (listed records.now text.now (length out.old)) }
    ensures out_after { out.new ≡ output_of records.now text.now (length out.old) }
{
    let answer = xml_call::the_lister::list(records, text, out);
    let verdict = answer.verdict;
    let refusal = answer.refusal;
    KListing {
        length: answer.length,
        refusal: from_refusal(verdict, refusal),
    }
}

#[unsafe(no_mangle)]
pub extern "C" fn kerzhoma_read_and_list(
    events: &[u32],
    attributes: &[u32],
    source: &[u8],
    records: &mut [u32],
    text: &mut [u8],
    scratch: &mut [u8],
    out: &mut [u8],
) -> KListing
    ensures answer { result ≡ listing_port
        (once_into events.now attributes.now source.now records.old text.old scratch.old out.old).outcome }
    ensures out { out.new ≡
        (once_into events.now attributes.now source.now records.old text.old scratch.old out.old).output }
    ensures records { records.new ≡
        (once_into events.now attributes.now source.now records.old text.old scratch.old out.old).words }
    ensures text { text.new ≡
        (once_into events.now attributes.now source.now records.old text.old scratch.old out.old).text }
    ensures scratch { scratch.new ≡
        (once_into events.now attributes.now source.now records.old text.old scratch.old out.old).scratch }
{
    let answer = xml_call::the_public_call::read_and_list(
        events, attributes, source, records, text, scratch, out,
    );
    let verdict = answer.verdict;
    let refusal = answer.refusal;
    KListing {
        length: answer.length,
        refusal: from_refusal(verdict, refusal),
    }
}

#[unsafe(no_mangle)]
pub extern "C" fn kerzhoma_public_listing(
    events: &[u32],
    attributes: &[u32],
    source: &[u8],
    records: &mut [u32],
    text: &mut [u8],
    scratch: &mut [u8],
    out: &mut [u8],
) -> usize
    ensures out { out.new ≡ laid (zeros (length out.old))
        (listing_into events.now attributes.now source.now records.old text.old scratch.old out.old) }
    ensures count { result ≡ min (length out.old)
        (length (listing_into events.now attributes.now source.now records.old text.old scratch.old out.old)) }
    ensures records { records.new ≡ zeros (length records.old) }
    ensures text { text.new ≡ zeros (length text.old) }
    ensures scratch { scratch.new ≡ zeros (length scratch.old) }
{
    xml_call::the_public_call::public_listing(
        events, attributes, source, records, text, scratch, out,
    )
}

#[unsafe(no_mangle)]
pub extern "C" fn kerzhoma_is_layout(records: &[u32], text: &[u8]) -> bool
    ensures { result ≡ layout records.now text.now }
{
    xml_writer::the_tree_layout::is_layout(records, text)
}

#[unsafe(no_mangle)]
pub extern "C" fn kerzhoma_write(
    records: &[u32],
    text: &[u8],
    events: &mut [u32],
    attributes: &mut [u32],
    bytes: &mut [u8],
) -> KWriting
    ensures value { result ≡ writing_port (wrote records.now text.now (length events.old) (length attributes.old) (length bytes.old)) }
    ensures events_after { events.new ≡ events_left records.now text.now (length events.old) (length attributes.old) (length bytes.old) }
    ensures attributes_after { attributes.new ≡ attributes_left records.now text.now (length events.old) (length attributes.old) (length bytes.old) }
    ensures bytes_after { bytes.new ≡ bytes_left records.now text.now (length events.old) (length attributes.old) (length bytes.old) }
{
    let answer = xml_writer::the_writer::write(records, text, events, attributes, bytes);
    let verdict = answer.verdict;
    let refusal = answer.refusal;
    KWriting {
        events: answer.events,
        attributes: answer.attributes,
        bytes: answer.bytes,
        refusal: from_refusal(verdict, refusal),
    }
}

#[unsafe(no_mangle)]
pub extern "C" fn kerzhoma_rehearse(
    cases: u64,
    failures: u64,
    errors: u64,
    skipped: u64,
    flaky: u64,
    events: &mut [u32],
    attributes: &mut [u32],
    bytes: &mut [u8],
) -> KWriting
    ensures value { result ≡ writing_port (ordered (order_of cases failures errors skipped flaky)
        (length events.old) (length attributes.old) (length bytes.old)) }
    ensures events_after { events.new ≡ events_ordered (order_of cases failures errors skipped flaky)
        (length events.old) (length attributes.old) (length bytes.old) }
    ensures attributes_after { attributes.new ≡ attributes_ordered (order_of cases failures errors skipped flaky)
        (length events.old) (length attributes.old) (length bytes.old) }
    ensures bytes_after { bytes.new ≡ bytes_ordered (order_of cases failures errors skipped flaky)
        (length events.old) (length attributes.old) (length bytes.old) }
{
    let answer = rehearsal::rehearse(
        cases, failures, errors, skipped, flaky, events, attributes, bytes,
    );
    let verdict = answer.verdict;
    let refusal = answer.refusal;
    KWriting {
        events: answer.events,
        attributes: answer.attributes,
        bytes: answer.bytes,
        refusal: from_refusal(verdict, refusal),
    }
}

#[unsafe(no_mangle)]
pub extern "C" fn kerzhoma_write_xml(records: &[u32], text: &[u8], out: &mut [u8]) -> KDocument
    ensures value { result ≡ document_port (wrote_xml records.now text.now (length out.old)) }
    ensures out_after { out.new ≡ document_left records.now text.now (length out.old) }
{
    let answer = xml_writer::write_xml(records, text, out);
    let verdict = answer.verdict;
    let refusal = answer.refusal;
    KDocument {
        length: answer.length,
        refusal: from_refusal(verdict, refusal),
    }
}

// The refusal may be made up. `lent` is the length of the area that was too short.
#[unsafe(no_mangle)]
pub extern "C" fn kerzhoma_explain(
    refusal: KRefusal,
    lent: usize,
    events: &[u32],
    attributes: &[u32],
    source: &[u8],
    out: &mut [u8],
) -> KExplained
    ensures value { result ≡ explained_port (explained events.now attributes.now source.now (plain_refusal refusal) lent (length out.old)) }
    ensures out_after { out.new ≡ explanation_in events.now attributes.now source.now (plain_refusal refusal) lent (length out.old) }
{
    let answer = explain::explain(to_refusal(refusal), lent, events, attributes, source, out);
    let verdict = answer.verdict;
    let why = answer.refusal;
    KExplained {
        length: answer.length,
        refusal: from_refusal(verdict, why),
    }
}

// The number of bytes put; 0 where out is too short, which is then cleared.
#[unsafe(no_mangle)]
pub extern "C" fn kerzhoma_time_text(out: &mut [u8], secs: u32, nanos: u32) -> usize
    ensures value { result ≡ count (placing cause.OutputFull (length out.old) (written_time secs nanos)) }
    ensures out_after { out.new ≡ whole out.old (written_time secs nanos) }
{
    let stored = explain::the_time_text::write_time(out, secs, nanos);
    let Some(n) = stored else {
        case_tags::the_area::clear(out);
        return 0;
    };
    n
}
