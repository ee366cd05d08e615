// All that the program does between its input and its output: the XML document of its input's report.
#![tactic(auto)]

ghost use Rattle.std.specs.Prelude.{◌≡◌, min, length};
ghost use Rattle.xml_writer.specs.of_area.Area.{zeros, laid};
ghost use Rattle.xml_listing.specs.of_read_machine.Reading.{reading};
ghost use Rattle.write_printing.specs.of_list_input.Input.{found_of, Lies};
ghost use Rattle.xml_listing.specs.of_xml_state.Answer.{result as given_result};
ghost use Rattle.document_printing.specs.Printed.{tree_printed, read_printed, tokens_printed, document_printed, found_printed, program_spells};

use tokenizer::tokenize;
use write_printing::the_list_input::{Parts, input_of};
use xml_listing::table_in;
use xml_listing::the_public_call::refuse;
use xml_listing::the_reader::read;
use xml_listing::the_xml_state::Tokenized;
use xml_writer::the_refusal::Verdict;
use xml_writer::write_xml;

const BUFFER: usize = 65536;

// The document of a tree.
fn print_tree(records: &[u32], text: &[u8], out: &mut [u8]) -> usize
    ensures out { out.new ≡ laid (zeros (length out.old)) (tree_printed (length out.old) records.now text.now) }
    ensures count { result ≡ min (length out.old) (length (tree_printed (length out.old) records.now text.now)) }
{
    let document = write_xml(records, text, out);
    let verdict = document.verdict;
    match verdict {
        Verdict::Accepted => document.length,
        Verdict::Refused => refuse(out),
    }
}

// What is printed for a table.
fn print_report(events: &[u32], attributes: &[u32], source: &[u8], out: &mut [u8]) -> usize
    ensures out { out.new
        ≡ laid (zeros (length out.old)) (read_printed (length out.old) (reading events.now attributes.now source.now 16384 65536 65536)) }
    ensures count { result ≡ min (length out.old) (length (read_printed (length out.old) (reading events.now attributes.now source.now 16384 65536 65536))) }
{
    let mut records = [0u32; 16384];
    let mut text = [0u8; 65536];
    let mut scratch = [0u8; 65536];
    let reading = read(
        events,
        attributes,
        source,
        &mut records,
        &mut text,
        &mut scratch,
    );
    let verdict = reading.verdict;
    match verdict {
        Verdict::Accepted => print_tree(&records, &text, out),
        Verdict::Refused => refuse(out),
    }
}

// What is printed for a document, by what the tokenizer answered: `events` and `attributes` are the areas that hold its table.
fn print_tokens(
    told: Tokenized,
    source: &[u8],
    events: &[u32],
    attributes: &[u32],
    out: &mut [u8],
) -> usize
    ensures out { out.new
        ≡ laid (zeros (length out.old)) (tokens_printed (length out.old) (given_result told events.now attributes.now) source.now) }
    ensures count { result ≡ min (length out.old) (length (tokens_printed (length out.old) (given_result told events.now attributes.now) source.now)) }
{
    match told {
        Tokenized::Table(n, k) => {
            print_report(table_in(events, n), table_in(attributes, k), source, out)
        }
        Tokenized::Refused(_, _) => refuse(out),
    }
}

// What is printed for an input that is no table, and is taken for a document.
fn print_document(source: &[u8], out: &mut [u8]) -> usize
    ensures out { out.new ≡ laid (zeros (length out.old)) (document_printed (length out.old) source.now) }
    ensures count { result ≡ min (length out.old) (length (document_printed (length out.old) source.now)) }
{
    if BUFFER < source.len() {
        return refuse(out);
    }
    let mut events = [0u32; 16384];
    let mut attributes = [0u32; 16384];
    let told = tokenize(source, &mut events, &mut attributes);
    print_tokens(told, source, &events, &attributes, out)
}

// What is printed for what was found in the input: `events` and `attributes` are the areas that hold its words.
fn print_found(
    found: Option<Parts>,
    input: &[u8],
    events: &[u32],
    attributes: &[u32],
    out: &mut [u8],
) -> usize
    requires { Lies found (length events.now) (length attributes.now) (length input.now) }
    ensures out { out.new
        ≡ laid (zeros (length out.old))
        (found_printed (length out.old) (found_of found events.now attributes.now input.now) input.now) }
    ensures count { result ≡ min (length out.old)
        (length (found_printed (length out.old) (found_of found events.now attributes.now input.now) input.now)) }
{
    match found {
        Some(x) => {
            let m = x.events;
            let n = x.attributes;
            let at = x.at;
            let end = at + x.source;
            print_report(&events[..m], &attributes[..n], &input[at..end], out)
        }
        None => print_document(input, out),
    }
}

// What the program prints for the bytes that it read (rules P3 and P6): its buffers are here, so that their sizes are in the promise.
pub fn print_input(input: &[u8], out: &mut [u8; 65536]) -> usize
    ensures out { out.new ≡ laid (zeros 65536) (program_spells input.now) }
    ensures count { result ≡ min 65536 (length (program_spells input.now)) }
{
    let mut events = [0u32; 16384];
    let mut attributes = [0u32; 16384];
    let found = input_of(input, &mut events, &mut attributes);
    print_found(found, input, &events, &attributes, out)
}
