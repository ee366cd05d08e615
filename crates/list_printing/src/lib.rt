// All that the program does between its input and its output: the public listing of the table that its input holds.
#![tactic(auto)]

ghost use Rattle.std.specs.Prelude.{◌≡◌, min, length, take};
ghost use Rattle.list_input.specs.of_area.Area.{zeros, laid};
ghost use Rattle.public_call.specs.of_public_claims.PublicListing.{refused_text};
ghost use Rattle.list_printing.specs.Printed.{lent, listing_for, printed, program_prints};
ghost use Rattle.list_input.specs.Input.{found_of, Lies};

pub use list_input as the_list_input;
use list_input::the_area::clear_words;
use list_input::{Parts, front, input_of};
pub use public_call as the_public_call;
use public_call::the_clearing::clear_all;
pub use public_call::the_reader;
use public_call::{public_listing, refuse};

// An input that is no table.
fn refuse_input(records: &mut [u32], text: &mut [u8], scratch: &mut [u8], out: &mut [u8]) -> usize
    ensures out { out.new ≡ laid (zeros (length out.old)) refused_text }
    ensures count { result ≡ min (length out.old) (length refused_text) }
    ensures records { records.new ≡ zeros (length records.old) }
    ensures text { text.new ≡ zeros (length text.old) }
    ensures scratch { scratch.new ≡ zeros (length scratch.old) }
{
    clear_all(records, text, scratch);
    refuse(out)
}

// The listing of what was found in the input: `events` and `attributes` are the areas that hold its words.
fn print_found(
    found: Option<Parts>,
    input: &[u8],
    events: &[u32],
    attributes: &[u32],
    records: &mut [u32],
    text: &mut [u8],
    scratch: &mut [u8],
    out: &mut [u8],
) -> usize
    requires { Lies found (length events.now) (length attributes.now) (length input.now) }
    ensures out { out.new ≡ laid (zeros (length out.old)) (listing_for (lent records.old text.old scratch.old out.old)
        (found_of found events.now attributes.now input.now)) }
    ensures count { result ≡ min (length out.old) (length (listing_for (lent records.old text.old scratch.old out.old)
        (found_of found events.now attributes.now input.now))) }
    ensures records { records.new ≡ zeros (length records.old) }
    ensures text { text.new ≡ zeros (length text.old) }
    ensures scratch { scratch.new ≡ zeros (length scratch.old) }
{
    match found {
        Some(x) => {
            let m = x.events;
            let n = x.attributes;
            let at = x.at;
            let end = at + x.source;
            public_listing(
                &events[..m],
                &attributes[..n],
                &input[at..end],
                records,
                text,
                scratch,
                out,
            )
        }
        None => refuse_input(records, text, scratch, out),
    }
}

// What is printed for the first n bytes of an input, at the front of `out`; the words of the table go to the first two areas. All areas
// but `out` end zero.
pub fn print_listing(
    input: &[u8],
    n: usize,
    events: &mut [u32],
    attributes: &mut [u32],
    records: &mut [u32],
    text: &mut [u8],
    scratch: &mut [u8],
    out: &mut [u8],
) -> usize
    ensures out { out.new ≡ laid (zeros (length out.old)) (printed (length events.old) (length attributes.old)
        (lent records.old text.old scratch.old out.old) (take n input.now)) }
    ensures count { result ≡ min (length out.old) (length (printed (length events.old) (length attributes.old)
        (lent records.old text.old scratch.old out.old) (take n input.now))) }
    ensures events { events.new ≡ zeros (length events.old) }
    ensures attributes { attributes.new ≡ zeros (length attributes.old) }
    ensures records { records.new ≡ zeros (length records.old) }
    ensures text { text.new ≡ zeros (length text.old) }
    ensures scratch { scratch.new ≡ zeros (length scratch.old) }
{
    let given = front(input, n);
    let found = input_of(given, events, attributes);
    let k = print_found(
        found, given, events, attributes, records, text, scratch, out,
    );
    clear_words(events);
    clear_words(attributes);
    k
}

// What the program prints for the bytes that it read (rules P3 and P4): its buffers are here, so that their sizes are in the promise.
pub fn print_input(input: &[u8], out: &mut [u8; 65536]) -> usize
    ensures out { out.new ≡ laid (zeros 65536) (program_prints input.now) }
    ensures count { result ≡ min 65536 (length (program_prints input.now)) }
{
    let mut events = [0u32; 16384];
    let mut attributes = [0u32; 16384];
    let mut records = [0u32; 16384];
    let mut text = [0u8; 65536];
    let mut scratch = [0u8; 65536];
    print_listing(
        input,
        input.len(),
        &mut events,
        &mut attributes,
        &mut records,
        &mut text,
        &mut scratch,
        out,
    )
}
