// A tokenizer's refusal in words: one line, put into an area that the caller lends.
#![tactic(auto)]

ghost use Rattle.std.specs.Prelude.{◌≡◌, Bool, length, Some};
ghost use Rattle.list_text.specs.of_refusal.declared.Cause.TheVariants as cause;
ghost use Rattle.explain_spot.specs.of_area.Area.{stored_answer};
ghost use Rattle.list_text.specs.inside.Behind.{filled, Puts};
ghost use Rattle.explain_xml.specs.XmlExplanation.{holds_most, spot_text, xml_sentence, xml_line, xml_line_answer, xml_explanation_in};
ghost use Rattle.explain_xml.specs.inside.Place.{short_place, place_of};

use explain_lines::line_in;
use explain_spot::the_area::{limit, wide};
use explain_spot::{before, column_behind, line_behind};
use list_text::the_refusal::NOWHERE;
use list_text::{put, put_decimal};

// Byte, line and column; nothing where no byte is concerned.
fn put_spot(out: &mut [u8], k: Option<usize>, source: &[u8], byte: u32) -> Option<usize>
    ensures { Puts (filled k out.old) (spot_text source.now byte) (filled result out.new) }
{
    if byte == NOWHERE {
        return k;
    }
    let passed = before(source, wide(byte));
    let line = line_behind(passed);
    let column = column_behind(passed);
    let opened = put(out, k, b" at byte ");
    let number = put_decimal(out, opened, byte as u64);
    let lined = put(out, number, b", line ");
    let counted = put_decimal(out, lined, line as u64);
    let parted = put(out, counted, b", column ");
    put_decimal(out, parted, column as u64)
}

// Whether an area of so many words holds as many events or attributes as a table may have.
fn holds_most(words: usize) -> bool
    ensures { result ≡ holds_most words }
{
    words / 5 >= limit::ENTRIES
}

// By whether the areas for events and attributes hold that many.
fn short_place(events: bool, attributes: bool) -> usize
    ensures { result ≡ short_place events attributes }
{
    match (events, attributes) {
        (true, true) => 7,
        (true, false) => 5,
        (false, true) => 6,
        (false, false) => 4,
    }
}

// The line of a sentence in the table below; `short` is that of 16.
fn place_of(number: u32, ended: bool, short: usize) -> usize
    ensures { result ≡ place_of number ended short }
{
    match number {
        18 if ended => 1,
        18 => 0,
        19 => 2,
        11 => 3,
        16 => short,
        _ => 8,
    }
}

fn put_sentence(
    out: &mut [u8],
    k: Option<usize>,
    number: u32,
    ended: bool,
    events: bool,
    attributes: bool,
) -> Option<usize>
    ensures { Puts (filled k out.old) (xml_sentence number ended events attributes) (filled result out.new) }
{
    let sentences = b"from this byte on the document is not well-formed XML\n\
        the document ends too early\n\
        a document type declaration is not taken\n\
        the document is longer than 16777216 bytes\n\
        the area for events or attributes is too short\n\
        the area for attributes is too short, or the document has more than 65536 events\n\
        the area for events is too short, or the document has more than 65536 attributes\n\
        the document has more than 65536 events or attributes\n\
        ?";
    let short = short_place(events, attributes);
    put(out, k, line_in(sentences, place_of(number, ended, short)))
}

fn put_line(
    out: &mut [u8],
    source: &[u8],
    number: u32,
    byte: u32,
    events: usize,
    attributes: usize,
) -> Option<usize>
    ensures { Puts (filled (Some 0) out.old) (xml_line source.now number byte events attributes) (filled result out.new) }
{
    let ended = source.len() <= wide(byte);
    let many_events = holds_most(events);
    let many_attributes = holds_most(attributes);
    let opened = put(out, Some(0), b"refused ");
    let told = put_decimal(out, opened, number as u64);
    let spot = put_spot(out, told, source, byte);
    let colon = put(out, spot, b": ");
    let sentence = put_sentence(out, colon, number, ended, many_events, many_attributes);
    put(out, sentence, b"\n")
}

// Puts the line at the front of out, and zeros behind it: how many bytes it has; Full, and zeros throughout, where it doesn't fit (rules
// N13 and N14). `events` and `attributes` are how many words tokenizing was lent for them (rule N15).
pub fn explain_xml(
    source: &[u8],
    number: u32,
    byte: u32,
    events: usize,
    attributes: usize,
    out: &mut [u8],
) -> Option<usize>
    ensures result_value { stored_answer cause.OutputFull result ≡ xml_line_answer source.now number byte events attributes (length out.old) }
    ensures out_after { out.new ≡ xml_explanation_in source.now number byte events attributes (length out.old) }
{
    explain_spot::the_area::clear(out);
    let put = put_line(out, source, number, byte, events, attributes);
    match put {
        Some(_) => put,
        None => {
            explain_spot::the_area::clear(out);
            put
        }
    }
}
