// A report that is being built in two lent areas: where its builder stands, what a call answers, and what the marks tell.
#![tactic(auto)]

ghost use Rattle.std.specs.Prelude.{◌≡◌, length};
ghost use Rattle.text_lossy.specs.of_area.Area.{zeros};
ghost use Rattle.build_draft.specs.Draft.{no_builder, draft_of, built_from, words_left_of, text_left, room_for, is_record, kind_at, is_of, last_of, last_open, mark_of};

pub use text_lossy as the_text_lossy;
use text_lossy::the_area::{clear, clear_words, least, limit, wide};
pub use text_lossy::{the_area, the_text_filter, the_utf8};
pub use tree_counts as the_tree_counts;
pub use tree_counts::the_refusal;
use tree_counts::the_refusal::{Cause, NOWHERE, Refusal, Verdict, no_refusal, refuse_late};
pub use tree_put as the_tree_put;
use tree_put::the_tree_record::field;
pub use tree_put::{the_timestamp, the_tree_record, the_uuids};

// How many records and bytes are used, and the records of the report, the open suite, the open case and its main status element;
// 4294967295 where there is none.
#[repr(C)]
#[derive(Clone, Copy)]
pub struct Builder {
    pub records: u32,
    pub bytes: u32,
    pub report: u32,
    pub suite: u32,
    pub case: u32,
    pub main: u32,
}

// What a call answers; at a refusal no builder.
#[derive(Clone, Copy)]
pub struct Built {
    pub verdict: Verdict,
    pub builder: Builder,
    pub refusal: Refusal,
}

// The element that a setter is for. `Status` is the open case's failure, error or skipped, `Last` the last record of an open report.
#[derive(Clone, Copy)]
pub enum Element {
    Report,
    Suite,
    Case,
    Status,
    Last,
}

// The open element that a property or extra is added to.
#[derive(Clone, Copy)]
pub enum Holder {
    Suite,
    Case,
}

#[derive(Clone, Copy)]
pub enum TextField {
    Classname,
    Message,
    Ty,
    Description,
    StackTrace,
    SystemOut,
    SystemErr,
    Hostname,
}

#[derive(Clone, Copy)]
pub enum NumberField {
    Assertions,
    Disabled,
}

#[derive(Clone, Copy)]
pub enum NonSuccessKind {
    Failure,
    Error,
}

#[derive(Clone, Copy)]
pub enum FlakyOrRerun {
    Flaky,
    Rerun,
}

// By rule B11.
pub fn no_builder() -> Builder
    ensures { result ≡ no_builder }
{
    Builder {
        records: 0,
        bytes: 0,
        report: NOWHERE,
        suite: NOWHERE,
        case: NOWHERE,
        main: NOWHERE,
    }
}

// How many records the area may hold.
pub fn room_for(words: &[u32]) -> usize
    ensures { result ≡ room_for words.now }
{
    least(words.len() / 32, limit::RECORDS)
}

// Whether i is the number of a record that is used and lies in the area.
#[tactic(auto, unfolding(crate::specs::Draft::is_record))]
pub fn is_record(b: Builder, words: &[u32], i: u32) -> bool
    ensures { result ≡ is_record b words.now i }
{
    (i < b.records) & (wide(b.records) <= room_for(words))
}

// The kind of record i, 0 behind the area's end.
pub fn kind_at(words: &[u32], i: u32) -> u32
    ensures { result ≡ kind_at words.now i }
{
    field(words, (i as usize) * 32)
}

// By rule B4.
#[tactic(auto, unfolding(crate::specs::Draft::is_of))]
pub fn is_of(b: Builder, words: &[u32], i: u32, kind: u32) -> bool
    ensures { result ≡ is_of b words.now i kind }
{
    is_record(b, words, i) & (kind_at(words, i) == kind)
}

// The number of the last record; 0 where there is none, which is the number of no record then.
pub fn last_of(b: Builder) -> u32
    ensures { result ≡ last_of b }
{
    b.records.saturating_sub(1)
}

// The last record while the report is open; after the end there is none (rule B12).
fn last_open(b: Builder) -> u32
    ensures { result ≡ last_open b }
{
    if b.report == NOWHERE {
        return NOWHERE;
    }
    last_of(b)
}

// By rule B3.
pub fn mark_of(b: Builder, element: Element) -> u32
    ensures { result ≡ mark_of b element }
{
    match element {
        Element::Report => b.report,
        Element::Suite => b.suite,
        Element::Case => b.case,
        Element::Status => b.main,
        Element::Last => last_open(b),
    }
}

fn clear_both(records: &mut [u32], text: &mut [u8])
    ensures records_after { records.new ≡ zeros (length records.old) }
    ensures text_after { text.new ≡ zeros (length text.old) }
{
    clear_words(records);
    clear(text);
}

// The answer of a call whose last part came to this; at a refusal both areas become zero (rule B11).
pub fn settle(step: Result<Builder, Cause>, records: &mut [u32], text: &mut [u8]) -> Built
    ensures value { result ≡ built_from (draft_of step records.old text.old) }
    ensures records_after { records.new ≡ words_left_of (length records.old) (draft_of step records.old text.old) }
    ensures text_after { text.new ≡ text_left (length text.old) (draft_of step records.old text.old) }
{
    match step {
        Ok(b) => Built {
            verdict: Verdict::Accepted,
            builder: b,
            refusal: no_refusal(),
        },
        Err(cause) => {
            clear_both(records, text);
            Built {
                verdict: Verdict::Refused,
                builder: no_builder(),
                refusal: refuse_late(cause),
            }
        }
    }
}
