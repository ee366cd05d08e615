// Fields of a draft's records that are no text, and which records have which field.
#![tactic(auto)]

ghost use Rattle.std.specs.Prelude.{◌≡◌, List, ◌&&◌, ℕ, leb};
ghost use Rattle.tree_values.specs.of_refusal.Refusal.{accepted};
ghost use Rattle.tree_values.specs.of_refusal.declared.Cause.TheVariants as cause;
ghost use Rattle.tree_values.specs.of_timestamp.Timestamp.{in_range};
ghost use Rattle.tree_values.specs.of_tree_put.Put.{put_moment, put_time, put_uuid};
ghost use Rattle.build_draft.specs.Draft.{draft_of, asks, is_of, on_record_of};
ghost use Rattle.build_draft.specs.Parts.{put_number, is_status, is_run, has_text, word_for, bit_for, is_output, has_times};
ghost use Rattle.build_draft.specs.Calls.{is_timed, set_uuid, set_number};
ghost use Rattle.build_draft.specs.declared.TextField.TheVariants as field;

use build_draft::{Builder, NumberField, TextField, is_of, is_record, kind_at};
use tree_values::the_area::least;
use tree_values::the_refusal::Cause;
use tree_values::the_timestamp::Moment;
use tree_values::the_tree_put::put_count;
use tree_values::the_tree_record::{bit, kind, put_bit, word};
use tree_values::the_uuids::Words;
use tree_values::{put_moment, put_time, put_uuid};

fn is_run(k: u32) -> bool
    ensures { result ≡ is_run k }
{
    (kind::FLAKY_FAILURE <= k) & (k <= kind::RERUN_ERROR)
}

fn is_status(k: u32) -> bool
    ensures { result ≡ is_status k }
{
    (kind::FAILURE <= k) & (k <= kind::RERUN_ERROR)
}

fn has_outputs(k: u32) -> bool
    ensures { result ≡ has_text k field.SystemOut }
{
    (k == kind::SUITE) | ((k == kind::CASE) | is_run(k))
}

// By rule B4.
pub fn has_text(k: u32, field: TextField) -> bool
    ensures { result ≡ has_text k field }
{
    match field {
        TextField::Classname => k == kind::CASE,
        TextField::Message | TextField::Ty | TextField::Description => is_status(k),
        TextField::StackTrace => is_run(k),
        TextField::SystemOut | TextField::SystemErr => has_outputs(k),
        TextField::Hostname => k == kind::SUITE,
    }
}

pub fn word_for(field: TextField) -> usize
    ensures { result ≡ word_for field }
{
    match field {
        TextField::Classname => word::CLASSNAME,
        TextField::Message => word::MESSAGE,
        TextField::Ty => word::TYPE,
        TextField::Description => word::DESCRIPTION,
        TextField::StackTrace => word::STACK_TRACE,
        TextField::SystemOut => word::OUT,
        TextField::SystemErr => word::ERR,
        TextField::Hostname => word::HOSTNAME,
    }
}

pub fn bit_for(field: TextField) -> u32
    ensures { result ≡ bit_for field }
{
    match field {
        TextField::Classname => bit::CLASSNAME,
        TextField::Message => bit::MESSAGE,
        TextField::Ty => bit::TYPE,
        TextField::Description => bit::DESCRIPTION,
        TextField::StackTrace => bit::STACK_TRACE,
        TextField::SystemOut => bit::OUT,
        TextField::SystemErr => bit::ERR,
        TextField::Hostname => bit::HOSTNAME,
    }
}

pub fn is_output(field: TextField) -> bool
    ensures { result ≡ is_output field }
{
    matches!(field, TextField::SystemOut | TextField::SystemErr)
}

fn has_times(k: u32) -> bool
    ensures { result ≡ has_times k }
{
    (k == kind::REPORT) | ((k == kind::SUITE) | ((k == kind::CASE) | is_run(k)))
}

fn is_timed(b: Builder, words: &[u32], i: u32) -> bool
    ensures { (text : List ℕ) → result ≡ is_timed i (record { builder = b; words = words.now; text = text }) }
{
    is_record(b, words, i) & has_times(kind_at(words, i))
}

// The timestamp of record i.
pub fn stamp(b: Builder, records: &mut [u32], i: u32, m: Moment) -> Result<Builder, Cause>
    ensures { (text : List ℕ) → draft_of result records.new text ≡ asks (is_timed i (record { builder = b; words = records.old; text = text }))
        cause.NotLayout (asks (in_range m) cause.BadTimestamp (accepted (record { builder = b; words = on_record_of i (put_moment m) records.old; text = text }))) }
{
    if !is_timed(b, records, i) {
        return Err(Cause::NotLayout);
    }
    if !tree_values::the_timestamp::in_range(m) {
        return Err(Cause::BadTimestamp);
    }
    let at = least((i as usize) * 32, records.len());
    put_moment(&mut records[at..], m);
    Ok(b)
}

// The time of record i.
pub fn clock(
    b: Builder,
    records: &mut [u32],
    i: u32,
    seconds: u32,
    nanos: u32,
) -> Result<Builder, Cause>
    ensures { (text : List ℕ) → draft_of result records.new text ≡ asks (is_timed i (record { builder = b; words = records.old; text = text })) cause.NotLayout
        (asks (leb seconds 8388607 && leb nanos 999999999) cause.BadTime (accepted (record { builder = b; words = on_record_of i (put_time (seconds, nanos)) records.old; text = text }))) }
{
    if !is_timed(b, records, i) {
        return Err(Cause::NotLayout);
    }
    if !((seconds <= 8388607) & (nanos <= 999999999)) {
        return Err(Cause::BadTime);
    }
    let at = least((i as usize) * 32, records.len());
    put_time(&mut records[at..], seconds, nanos);
    Ok(b)
}

pub fn identify(b: Builder, records: &mut [u32], w: Words) -> Result<Builder, Cause>
    ensures { (text : List ℕ) → draft_of result records.new text ≡ set_uuid w (record { builder = b; words = records.old; text = text }) }
{
    if !is_of(b, records, b.report, kind::REPORT) {
        return Err(Cause::NotLayout);
    }
    let at = least((b.report as usize) * 32, records.len());
    put_uuid(&mut records[at..], w);
    Ok(b)
}

// A count with a presence bit, in record i of a kind.
fn put_number(
    b: Builder,
    records: &mut [u32],
    i: u32,
    kind: u32,
    o: usize,
    k: u32,
    n: u64,
) -> Result<Builder, Cause>
    ensures { (text : List ℕ) → draft_of result records.new text
        ≡ asks (is_of b records.old i kind) cause.NotLayout (accepted (record { builder = b; words = on_record_of i (put_number o k n) records.old; text = text })) }
{
    if !is_of(b, records, i, kind) {
        return Err(Cause::NotLayout);
    }
    let at = least((i as usize) * 32, records.len());
    let r = &mut records[at..];
    put_count(r, o, n);
    put_bit(r, k);
    Ok(b)
}

// A case's assertions, or a suite's `disabled`.
#[tactic(auto, unfolding(build_draft::specs::Calls::set_number))]
pub fn number(b: Builder, records: &mut [u32], field: NumberField, n: u64) -> Result<Builder, Cause>
    ensures { (text : List ℕ) → draft_of result records.new text ≡ set_number field n (record { builder = b; words = records.old; text = text }) }
{
    match field {
        NumberField::Assertions => put_number(
            b,
            records,
            b.case,
            kind::CASE,
            word::ASSERTIONS,
            bit::ASSERTIONS,
            n,
        ),
        NumberField::Disabled => put_number(
            b,
            records,
            b.suite,
            kind::SUITE,
            word::DISABLED,
            bit::DISABLED,
            n,
        ),
    }
}
