// What a case has inside: its properties, its main and runs; and what suites and cases have alike.
#![tactic(auto)]

ghost use Rattle.std.specs.Prelude.{◌≡◌, List, ℕ};
ghost use Rattle.write_walk.specs.of_list_sums.inside.Rows.{records_in};
ghost use Rattle.write_marks.specs.of_write_table.inside.Putting.{Wrote};
ghost use Rattle.write_marks.specs.inside.Kept.{kept};
ghost use Rattle.write_walk.specs.of_write_items.inside.Case.{properties_items, closing_items, main_tag, main_items, elements_items};

use area::least;
use names::tag;
use table::kind::{END, START};
use tree_record::{field, kind, word};
use write_entries::put_tag;
use write_marks::Marks;
use write_rows::put_rows;
use write_status::{put_outputs, put_status};
use write_walk::{is_flaky, kind_of_first, seek};

// The level of what belongs to a case (write_walk).
const CASE: u32 = 2;

// The list of properties, only where there are any: those of one kind, which is a suite's or a case's (rule W4).
pub fn put_properties(
    events: &mut [u32],
    attributes: &mut [u32],
    bytes: &mut [u8],
    k: Marks,
    text: &[u8],
    words: &[u32],
    level: u32,
    listed: u32,
) -> Marks
    ensures { Wrote (kept k events.old attributes.old bytes.old)
        (properties_items text.now level listed (records_in words.now)) (kept result events.new attributes.new bytes.new) }
{
    if kind_of_first(words, level, listed, listed) == 0 {
        return k;
    }
    let opened = put_tag(events, bytes, k, START, tag::PROPERTIES as u8, 0);
    let rows = put_rows(
        events, attributes, bytes, opened, text, words, level, listed, listed, false,
    );
    put_tag(events, bytes, rows, END, tag::PROPERTIES as u8, 0)
}

// The outputs of a suite or case, and its End.
pub fn put_closing(
    events: &mut [u32],
    bytes: &mut [u8],
    k: Marks,
    text: &[u8],
    r: &[u32],
    code: u8,
) -> Marks
    ensures { (at : List ℕ)
        → Wrote (kept k events.old at bytes.old) (closing_items text.now r.now code) (kept result events.new at bytes.new) }
{
    let outputs = put_outputs(events, bytes, k, text, r);
    put_tag(events, bytes, outputs, END, code, 0)
}

fn main_tag(k: u32) -> u8
    ensures { result ≡ main_tag k }
{
    if k == kind::FAILURE {
        tag::FAILURE as u8
    } else {
        tag::ERROR as u8
    }
}

// A main and its runs.
fn put_main(
    events: &mut [u32],
    attributes: &mut [u32],
    bytes: &mut [u8],
    k: Marks,
    text: &[u8],
    r: &[u32],
    words: &[u32],
) -> Marks
    ensures { Wrote (kept k events.old attributes.old bytes.old)
        (main_items text.now r.now (records_in words.now)) (kept result events.new attributes.new bytes.new) }
{
    let here = field(r, word::KIND);
    if here == kind::SKIPPED {
        return put_status(events, attributes, bytes, k, text, r, tag::SKIPPED as u8);
    }
    let flaky = is_flaky(r, words);
    let code = main_tag(here);
    let main = put_status(events, attributes, bytes, k, text, r, code);
    put_rows(
        events,
        attributes,
        bytes,
        main,
        text,
        words,
        CASE,
        kind::FLAKY_FAILURE,
        kind::RERUN_ERROR,
        flaky,
    )
}

// The main and then its runs; without a main the runs are flaky (rule W6).
pub fn put_elements(
    events: &mut [u32],
    attributes: &mut [u32],
    bytes: &mut [u8],
    k: Marks,
    text: &[u8],
    words: &[u32],
) -> Marks
    ensures { Wrote (kept k events.old attributes.old bytes.old)
        (elements_items text.now (records_in words.now)) (kept result events.new attributes.new bytes.new) }
{
    let at = seek(words, CASE, kind::FAILURE, kind::SKIPPED);
    let rest = &words[at..];
    let to = least(32, rest.len());
    let r = &rest[..to];
    if field(r, word::KIND) == 0 {
        return put_rows(
            events,
            attributes,
            bytes,
            k,
            text,
            words,
            CASE,
            kind::FLAKY_FAILURE,
            kind::RERUN_ERROR,
            true,
        );
    }
    put_main(events, attributes, bytes, k, text, r, words)
}
