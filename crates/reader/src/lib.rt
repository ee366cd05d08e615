// Reading: an event table in, a report's tree out (deserialize.rs of the crate).
#![tactic(auto)]

ghost use Rattle.std.specs.Prelude.{◌≡◌, length};
ghost use Rattle.clearing.specs.of_area.Area.{zeros};
ghost use Rattle.clearing.specs.of_refusal.Refusal as why;
ghost use Rattle.read_step.specs.of_table.Table.{table_of};
ghost use Rattle.read_step.specs.of_read_machine.Reading as machine;
ghost use Rattle.read_step.specs.of_read_element.inside.Refines.{areas};
ghost use Rattle.read_step.specs.inside.Standing.{Lent, Placed, refusal_at};
ghost use Rattle.read_step.specs.inside.Promises.{given, lent};
ghost use Rattle.clearing.specs.of_refusal.declared.Verdict.TheVariants.{Refused as IsRefused};
ghost use Rattle.reader.specs.Answer.{answer_of};
ghost use Rattle.reader.specs.inside.Ran.{Runs, Reads};

pub use clearing as the_clearing;
use clearing::the_area::{clear, least, limit};
use clearing::the_refusal::{Cause, Path, Refusal, Verdict, no_refusal};
pub use clearing::{the_area, the_refusal};
use clearing::{clear_all, clear_tree};
use read_step::the_read_fault::within;
use read_step::the_read_path::path_of;
use read_step::the_read_scratch::first_of;
use read_step::the_table::check_table;
use read_step::{Halt, State, begin, step_event};

// The answer. Of an accepted table the refusal is that of `no_refusal`.
#[derive(Clone, Copy)]
pub struct Reading {
    pub verdict: Verdict,
    pub refusal: Refusal,
}

// Event by event, up to the first refusal (rule F2).
fn run_events(
    events: &[u32],
    attributes: &[u32],
    source: &[u8],
    records: &mut [u32],
    text: &mut [u8],
    scratch: &mut [u8],
) -> Result<(), (State, Halt)>
    requires source_value { table_of events.now attributes.now source.now ≡ why.accepted tt }
    requires lent { Lent (length records.old) (length text.old) (length scratch.old) }
    requires records_value { records.old ≡ zeros (length records.old) }
    requires text_value { text.old ≡ zeros (length text.old) }
    ensures { Runs (given events.now attributes.now source.now)
        (lent records.old text.old scratch.old) (areas records.new text.new) result }
{
    let mut st = begin();
    let mut first = 0;
    // loop: each turn reads an event and what is skipped behind it.
    loop {
        first = first_of(first, st.content, st.marks.event);
        let next = step_event(
            st, first, events, attributes, source, records, text, scratch,
        );
        match next {
            Ok(behind) => match behind {
                Some(s) => st = s,
                None => break Ok(()),
            },
            Err(h) => break Err((st, h)),
        }
    }
}

fn refusing(cause: Cause, path: Path, event: u32, attribute: u32) -> Reading
    ensures { result ≡ record { verdict = IsRefused; refusal = record { cause = cause; path = path; event = event; attribute = attribute } } }
{
    Reading {
        verdict: Verdict::Refused,
        refusal: Refusal {
            cause,
            path,
            event,
            attribute,
        },
    }
}

fn accepting() -> Reading
    ensures { result ≡ answer_of (why.accepted tt) }
{
    Reading {
        verdict: Verdict::Accepted,
        refusal: no_refusal(),
    }
}

// The one place where a path is made, with the numbers of event and attribute (rule F6).
fn halted(st: State, h: Halt) -> Reading
    requires { Placed st h }
    ensures { ((placed : Placed st h) → result ≡ answer_of (why.refused (refusal_at st h placed.name))) }
{
    let fault = h.fault;
    let path = within(path_of(h.act, st.control, st.marks), fault.key);
    refusing(fault.cause, path, h.event as u32, fault.attribute)
}

// Of longer areas only so much is used (rule M1).
fn run_within(
    events: &[u32],
    attributes: &[u32],
    source: &[u8],
    records: &mut [u32],
    text: &mut [u8],
    scratch: &mut [u8],
) -> Result<(), (State, Halt)>
    requires source_value { table_of events.now attributes.now source.now ≡ why.accepted tt }
    requires records_value { records.old ≡ zeros (length records.old) }
    requires text_value { text.old ≡ zeros (length text.old) }
    ensures { Runs (given events.now attributes.now source.now)
        (lent records.old text.old scratch.old) (areas records.new text.new) result }
{
    let words = least(records.len() / 32, limit::RECORDS) * 32;
    let bytes = least(text.len(), limit::BYTES);
    let room = least(scratch.len(), limit::BYTES);
    run_events(
        events,
        attributes,
        source,
        &mut records[..words],
        &mut text[..bytes],
        &mut scratch[..room],
    )
}

// A good table, into areas that are zero, and become so again at a refusal (rule F13).
fn read_good(
    events: &[u32],
    attributes: &[u32],
    source: &[u8],
    records: &mut [u32],
    text: &mut [u8],
    scratch: &mut [u8],
) -> Reading
    requires source_value { table_of events.now attributes.now source.now ≡ why.accepted tt }
    requires records_value { records.old ≡ zeros (length records.old) }
    requires text_value { text.old ≡ zeros (length text.old) }
    ensures { Reads (given events.now attributes.now source.now)
        (lent records.old text.old scratch.old) (lent records.new text.new scratch.new) result }
{
    let ran = run_within(events, attributes, source, records, text, scratch);
    match ran {
        Ok(()) => {
            clear(scratch);
            accepting()
        }
        Err((st, h)) => {
            clear_all(records, text, scratch);
            halted(st, h)
        }
    }
}

// Reads a table into lent areas (rule R1); a plain report that was written comes back (rule W16). The whole table is checked first
// (rule T6), and what isn't used ends zero (rule M11).
pub fn read(
    events: &[u32],
    attributes: &[u32],
    source: &[u8],
    records: &mut [u32],
    text: &mut [u8],
    scratch: &mut [u8],
) -> Reading
    ensures answer { result ≡ answer_of (machine.reading events.now attributes.now source.now
        (length records.old) (length text.old) (length scratch.old)).outcome }
    ensures records { records.new ≡ (machine.reading events.now attributes.now source.now
        (length records.old) (length text.old) (length scratch.old)).words }
    ensures text { text.new ≡ (machine.reading events.now attributes.now source.now
        (length records.old) (length text.old) (length scratch.old)).text }
    ensures scratch { scratch.new ≡ (machine.reading events.now attributes.now source.now
        (length records.old) (length text.old) (length scratch.old)).scratch }
{
    clear_tree(records, text);
    let checked = check_table(events, attributes, source);
    match checked {
        Ok(()) => read_good(events, attributes, source, records, text, scratch),
        Err((event, attribute)) => {
            clear(scratch);
            refusing(Cause::BadTable, Path::new(), event, attribute)
        }
    }
}
