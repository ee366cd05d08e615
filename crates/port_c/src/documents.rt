// XML documents: tokenized, listed, and a tokenizer's refusal in words.
ghost use Rattle.std.specs.Prelude.{◌≡◌, min, length};
ghost use Rattle.case_tags.specs.of_area.Area.{zeros, laid};
ghost use Rattle.explain.specs.of_time_text.Written.{count};
ghost use Rattle.xml_call.specs.of_xml_machine.Tokens.{tokens};
ghost use Rattle.xml_call.specs.of_xml_listing.XmlListing.{lent, xml_listing, xml_areas};
ghost use Rattle.explain_xml.specs.XmlExplanation.{xml_line_answer, xml_explanation_in};
ghost use Rattle.port_c.specs.Documents.{tokenized_port};

use case_tags::the_refusal::NOWHERE;
use xml_call::the_xml_state::Tokenized;

// The number is 0 where the document is tokenized; where it is refused there are no events and attributes.
#[repr(C)]
#[derive(Clone, Copy)]
pub struct KTokenized {
    pub events: u32,
    pub attributes: u32,
    pub number: u32,
    pub byte: u32,
}

#[unsafe(no_mangle)]
pub extern "C" fn kerzhoma_tokenize(
    source: &[u8],
    events: &mut [u32],
    attributes: &mut [u32],
) -> KTokenized
    ensures value { result ≡ tokenized_port (tokens source.now (length events.old) (length attributes.old)).answer }
    ensures events_after { events.new ≡ (tokens source.now (length events.old) (length attributes.old)).events }
    ensures attributes_after { attributes.new ≡ (tokens source.now (length events.old) (length attributes.old)).attributes }
{
    let answer = xml_call::the_tokenizer::tokenize(source, events, attributes);
    match answer {
        Tokenized::Table(n, k) => KTokenized {
            events: n,
            attributes: k,
            number: 0,
            byte: NOWHERE,
        },
        Tokenized::Refused(number, byte) => KTokenized {
            events: 0,
            attributes: 0,
            number,
            byte,
        },
    }
}

#[unsafe(no_mangle)]
pub extern "C" fn kerzhoma_list_xml(
    source: &[u8],
    events: &mut [u32],
    attributes: &mut [u32],
    records: &mut [u32],
    text: &mut [u8],
    scratch: &mut [u8],
    out: &mut [u8],
) -> usize
    ensures out { out.new ≡ laid (zeros (length out.old)) (xml_listing source.now (length events.old) (length attributes.old)
        (lent records.old text.old scratch.old out.old)) }
    ensures count { result ≡ min (length out.old) (length (xml_listing source.now (length events.old) (length attributes.old)
        (lent records.old text.old scratch.old out.old))) }
    ensures events { events.new ≡ (xml_areas (length events.old) (length attributes.old)
        (lent records.old text.old scratch.old out.old)).events }
    ensures attributes { attributes.new ≡ (xml_areas (length events.old) (length attributes.old)
        (lent records.old text.old scratch.old out.old)).attributes }
    ensures records { records.new ≡ (xml_areas (length events.old) (length attributes.old)
        (lent records.old text.old scratch.old out.old)).words }
    ensures text { text.new ≡ (xml_areas (length events.old) (length attributes.old)
        (lent records.old text.old scratch.old out.old)).text }
    ensures scratch { scratch.new ≡ (xml_areas (length events.old) (length attributes.old)
        (lent records.old text.old scratch.old out.old)).scratch }
{
    xml_call::list_xml(source, events, attributes, records, text, scratch, out)
}

// How many bytes the line has; 0 where it doesn't fit. `events` and `attributes` are the words that tokenizing was lent.
#[unsafe(no_mangle)]
pub extern "C" fn kerzhoma_explain_xml(
    source: &[u8],
    number: u32,
    byte: u32,
    events: usize,
    attributes: usize,
    out: &mut [u8],
) -> usize
    ensures value { result ≡ count (xml_line_answer source.now number byte events attributes (length out.old)) }
    ensures out_after { out.new ≡ xml_explanation_in source.now number byte events attributes (length out.old) }
{
    let stored = explain_xml::explain_xml(source, number, byte, events, attributes, out);
    match stored {
        Some(n) => n,
        None => 0,
    }
}
