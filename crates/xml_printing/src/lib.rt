// All that the program does between its input and its output: the public listing of the XML document that its input is.
#![tactic(auto)]

ghost use Rattle.std.specs.Prelude.{◌≡◌, min, length, take};
ghost use Rattle.list_input.specs.of_area.Area.{zeros, laid};
ghost use Rattle.xml_call.specs.of_xml_listing.XmlListing.{lent};
ghost use Rattle.xml_printing.specs.XmlPrinted.{xml_printed, program_prints};

use list_input::front;
use xml_call::list_xml;
use xml_call::the_public_call::refuse;

const BUFFER: usize = 65536;

// What is printed for the first n bytes of an input, at the front of `out`.
fn print_document(
    input: &[u8],
    n: usize,
    events: &mut [u32],
    attributes: &mut [u32],
    records: &mut [u32],
    text: &mut [u8],
    scratch: &mut [u8],
    out: &mut [u8],
) -> usize
    ensures out { out.new ≡ laid (zeros (length out.old)) (xml_printed (length events.old) (length attributes.old) (lent records.old text.old scratch.old out.old) (take n input.now)) }
    ensures count { result ≡ min (length out.old) (length (xml_printed (length events.old) (length attributes.old) (lent records.old text.old scratch.old out.old) (take n input.now))) }
{
    let document = front(input, n);
    if BUFFER < document.len() {
        return refuse(out);
    }
    list_xml(document, events, attributes, records, text, scratch, out)
}

// What the program prints for the bytes that it read (rule N12): its buffers are here, so that their sizes are in the promise.
pub fn print_xml(input: &[u8], out: &mut [u8; 65536]) -> usize
    ensures out { out.new ≡ laid (zeros 65536) (program_prints input.now) }
    ensures count { result ≡ min 65536 (length (program_prints input.now)) }
{
    let mut events = [0u32; 16384];
    let mut attributes = [0u32; 16384];
    let mut records = [0u32; 16384];
    let mut text = [0u8; 65536];
    let mut scratch = [0u8; 65536];
    print_document(
        input,
        input.len(),
        &mut events,
        &mut attributes,
        &mut records,
        &mut text,
        &mut scratch,
        out,
    )
}
