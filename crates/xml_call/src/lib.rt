// XML bytes in, public listing out: tokenizes, reads and lists, all in lent areas, and leaves nothing but the listing.
#![tactic(auto)]

ghost use Rattle.std.specs.Prelude.{◌≡◌, min, length};
ghost use Rattle.tokenizer.specs.of_area.Area.{zeros, laid};
ghost use Rattle.xml_listing.specs.XmlListing.{lent, xml_listing, xml_areas};

pub use tokenizer as the_tokenizer;
use tokenizer::the_area::clear_words;
use tokenizer::tokenize;
use xml_listing::list_tokens;
pub use xml_listing::{the_lister, the_public_call, the_reader, the_xml_state};

// The public listing of a document, at the front of `out`, whose other bytes become zero: how many bytes of `out` it takes. Any
// refusal, the tokenizer's too, gives `(refused)`. All areas but `out` end zero in every case (rule N11).
pub fn list_xml(
    source: &[u8],
    events: &mut [u32],
    attributes: &mut [u32],
    records: &mut [u32],
    text: &mut [u8],
    scratch: &mut [u8],
    out: &mut [u8],
) -> usize
    ensures out { out.new ≡ laid (zeros (length out.old)) (xml_listing source.now (length events.old) (length attributes.old)
        (lent records.old text.old scratch.old out.old)) }
    ensures count { result ≡ min (length out.old) (length (xml_listing source.now (length events.old) (length attributes.old)
        (lent records.old text.old scratch.old out.old))) }
    ensures events { events.new ≡ (xml_areas (length events.old) (length attributes.old)
        (lent records.old text.old scratch.old out.old)).events }
    ensures attributes { attributes.new ≡ (xml_areas (length events.old) (length attributes.old)
        (lent records.old text.old scratch.old out.old)).attributes }
    ensures records { records.new ≡ (xml_areas (length events.old) (length attributes.old)
        (lent records.old text.old scratch.old out.old)).words }
    ensures text { text.new ≡ (xml_areas (length events.old) (length attributes.old)
        (lent records.old text.old scratch.old out.old)).text }
    ensures scratch { scratch.new ≡ (xml_areas (length events.old) (length attributes.old)
        (lent records.old text.old scratch.old out.old)).scratch }
{
    let told = tokenize(source, events, attributes);
    let n = list_tokens(
        told, source, events, attributes, records, text, scratch, out,
    );
    clear_words(events);
    clear_words(attributes);
    n
}
