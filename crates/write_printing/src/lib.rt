// All that the program does between its input and its output: the table that its input's report is written as.
#![tactic(auto)]

ghost use Rattle.std.specs.Prelude.{◌≡◌, min, length};
ghost use Rattle.writer.specs.of_area.Area.{zeros, laid};
ghost use Rattle.list_printing.specs.of_read_machine.Reading.{reading};
ghost use Rattle.list_printing.specs.of_list_input.Input.{found_of, Lies};
ghost use Rattle.write_words.specs.Bytes.{table_bytes};
ghost use Rattle.write_printing.specs.Printed.{tree_printed, read_printed, found_printed, program_writes};

pub use list_printing::the_list_input;
use list_printing::the_list_input::{Parts, input_of};
use list_printing::the_public_call::refuse;
use list_printing::the_reader::read;
use write_words::put_table;
use writer::the_area::clear;
use writer::the_refusal::Verdict;
use writer::write;

// A table at the front of `out`, whose other bytes become zero; of a shorter area the part that fits.
fn print_table(events: &[u32], attributes: &[u32], bytes: &[u8], out: &mut [u8]) -> usize
    ensures out { out.new ≡ laid (zeros (length out.old)) (table_bytes (record { events = events.now; attributes = attributes.now; bytes = bytes.now })) }
    ensures count { result ≡ min (length out.old) (length (table_bytes (record { events = events.now; attributes = attributes.now; bytes = bytes.now }))) }
{
    clear(out);
    let put = put_table(out, Some(0), events, attributes, bytes);
    match put {
        Some(n) => n,
        None => out.len(),
    }
}

// The table that a tree is written as.
fn print_tree(records: &[u32], text: &[u8], out: &mut [u8]) -> usize
    ensures out { out.new ≡ laid (zeros (length out.old)) (tree_printed records.now text.now) }
    ensures count { result ≡ min (length out.old) (length (tree_printed records.now text.now)) }
{
    let mut events = [0u32; 16384];
    let mut attributes = [0u32; 16384];
    let mut bytes = [0u8; 65536];
    let writing = write(records, text, &mut events, &mut attributes, &mut bytes);
    let verdict = writing.verdict;
    match verdict {
        Verdict::Accepted => {
            let m = writing.events * 5;
            let n = writing.attributes * 5;
            let size = writing.bytes;
            print_table(&events[..m], &attributes[..n], &bytes[..size], out)
        }
        Verdict::Refused => refuse(out),
    }
}

// What is printed for a table.
fn print_report(events: &[u32], attributes: &[u32], source: &[u8], out: &mut [u8]) -> usize
    ensures out { out.new ≡ laid (zeros (length out.old)) (read_printed (reading events.now attributes.now source.now 16384 65536 65536)) }
    ensures count { result ≡ min (length out.old) (length (read_printed (reading events.now attributes.now source.now 16384 65536 65536))) }
{
    let mut records = [0u32; 16384];
    let mut text = [0u8; 65536];
    let mut scratch = [0u8; 65536];
    let reading = read(
        events,
        attributes,
        source,
        &mut records,
        &mut text,
        &mut scratch,
    );
    let verdict = reading.verdict;
    match verdict {
        Verdict::Accepted => print_tree(&records, &text, out),
        Verdict::Refused => refuse(out),
    }
}

// What is printed for what was found in the input: `events` and `attributes` are the areas that hold its words.
fn print_found(
    found: Option<Parts>,
    input: &[u8],
    events: &[u32],
    attributes: &[u32],
    out: &mut [u8],
) -> usize
    requires { Lies found (length events.now) (length attributes.now) (length input.now) }
    ensures out { out.new ≡ laid (zeros (length out.old)) (found_printed (found_of found events.now attributes.now input.now)) }
    ensures count { result ≡ min (length out.old) (length (found_printed (found_of found events.now attributes.now input.now))) }
{
    match found {
        Some(x) => {
            let m = x.events;
            let n = x.attributes;
            let at = x.at;
            let end = at + x.source;
            print_report(&events[..m], &attributes[..n], &input[at..end], out)
        }
        None => refuse(out),
    }
}

// What the program prints for the bytes that it read (rules P3 and P5): its buffers are here, so that their sizes are in the promise.
// The output has room for three words, and a buffer each for events, attributes and bytes.
pub fn print_input(input: &[u8], out: &mut [u8; 196620]) -> usize
    ensures out { out.new ≡ laid (zeros 196620) (program_writes input.now) }
    ensures count { result ≡ min 196620 (length (program_writes input.now)) }
{
    let mut events = [0u32; 16384];
    let mut attributes = [0u32; 16384];
    let found = input_of(input, &mut events, &mut attributes);
    print_found(found, input, &events, &attributes, out)
}
