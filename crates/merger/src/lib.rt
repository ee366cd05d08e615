// Two trees merged into a third, in areas that the caller lends.
#![tactic(auto)]

ghost use Rattle.std.specs.Prelude.{◌≡◌, true, ◌++◌, ◌+◌, ◌*◌, ◌≤◌, ◌<◌, length, take};
ghost use Rattle.clearing.specs.of_area.Area.{zeros};
ghost use Rattle.clearing.specs.of_area.Limits.{most_words, most_bytes};
ghost use Rattle.clearing.specs.of_refusal.Refusal.{refused, late};
ghost use Rattle.merge_records.specs.of_schema.Stores.{splice};
ghost use Rattle.merge_records.specs.of_tree_report.Layout.{layout};
ghost use Rattle.merge_head.specs.of_tree_merge.Answer.{merge_answer, outcome_of, merged, records_left, text_left};
ghost use Rattle.merge_limits.specs.inside.Limits.{step_answer};
ghost use Rattle.merge_records.specs.inside.Copied.{below_in, sizes_in};
ghost use Rattle.merge_head.specs.inside.Head.{head_of};
ghost use Rattle.merger.specs.Answer.{merging_from};
ghost use Rattle.merger.specs.inside.Whole as whole;

use clearing::clear_tree;
use clearing::the_area::{least, limit};
use clearing::the_refusal::{Cause, Refusal, Verdict, no_refusal, refuse_late};
pub use merge_head::{the_tree_put, the_tree_values};
use merge_head::{name_size, nanos_of, put_head, report_in, sums_of};
use merge_limits::{is_long, room_by};
use merge_records::the_list_values::part_of;
use merge_records::the_merge_rows::put_text;
pub use merge_records::the_starts;
use merge_records::the_tree_counts::Counts;
use merge_records::the_tree_layout::is_layout;
use merge_records::the_tree_record::{bit, field, has_bit, word};
use merge_records::{Mark, needs_of, put_rows};

// Whether there is a merged tree, or why not.
#[derive(Clone, Copy)]
pub struct Merging {
    pub verdict: Verdict,
    pub refusal: Refusal,
}

// One record for the report, and what the two trees need.
fn room_for(first: &[u32], second: &[u32], words: usize, bytes: usize) -> Result<(), Cause>
    requires { (length first.now ≤ most_words) × (length second.now ≤ most_words) }
    ensures { step_answer result ≡ whole.room_for first.now second.now words bytes }
{
    let x = needs_of(first);
    let y = needs_of(second);
    let name = name_size(report_in(first));
    room_by(
        x.records + y.records,
        name + x.bytes + y.bytes,
        words,
        bytes,
    )
}

// The name at the front of the text area.
fn put_name(bytes: &mut [u8], text: &[u8], r: &[u32]) -> usize
    requires { length (whole.name_text text.now r.now) ≤ length bytes.old }
    ensures value { result ≡ length (whole.name_text text.now r.now) }
    ensures bytes_after { bytes.new ≡ splice 0 (whole.name_text text.now r.now) bytes.old }
{
    if has_bit(r, bit::NAME) {
        return put_text(
            bytes,
            0,
            part_of(text, field(r, word::NAME), field(r, word::NAME + 1)),
        );
    }
    0
}

// The records behind the report's, and all texts; r is the first's report.
fn put_below(
    first: &[u32],
    first_text: &[u8],
    second: &[u32],
    second_text: &[u8],
    r: &[u32],
    records: &mut [u32],
    text: &mut [u8],
)
    requires { (r.now ≡ whole.report_in first.now) × whole.Enough first.now first_text.now second.now second_text.now records.old text.old }
    ensures records_after { records.new ≡ splice 32 (whole.rows_for first.now first_text.now second.now second_text.now
        (length (whole.name_text first_text.now r.now))) records.old }
    ensures text_after { text.new ≡ splice 0 (whole.tree_texts first.now first_text.now second.now second_text.now) text.old }
{
    let fill = put_name(text, first_text, r);
    let from = Mark { word: 32, fill };
    let behind = put_rows(first, first_text, records, text, from);
    put_rows(second, second_text, records, text, behind);
}

// There is room for all, in areas of zeros.
fn put_tree(
    first: &[u32],
    first_text: &[u8],
    second: &[u32],
    second_text: &[u8],
    counts: Counts,
    nanos: u64,
    records: &mut [u32],
    text: &mut [u8],
)
    requires { (nanos < 8388608000000000) × whole.Enough first.now first_text.now second.now second_text.now records.old text.old }
    ensures records_after { records.new ≡ splice 0 (head_of (whole.report_in first.now) (whole.report_in second.now) counts nanos (take 32 records.old)
        ++ whole.rows_for first.now first_text.now second.now second_text.now
        (length (whole.name_text first_text.now (whole.report_in first.now)))) records.old }
    ensures text_after { text.new ≡ splice 0 (whole.tree_texts first.now first_text.now second.now second_text.now) text.old }
{
    let a = report_in(first);
    let b = report_in(second);
    put_head(&mut records[..32], a, b, counts, nanos);
    put_below(first, first_text, second, second_text, a, records, text);
}

// The counts and the time are added.
fn place(
    first: &[u32],
    first_text: &[u8],
    second: &[u32],
    second_text: &[u8],
    counts: Counts,
    nanos: u64,
    records: &mut [u32],
    text: &mut [u8],
) -> Result<(), Cause>
    requires { (nanos < 8388608000000000) × (counts ≡ whole.sums_of first.now second.now) × (nanos ≡ whole.nanos_for first.now second.now)
        × whole.Sized first.now first_text.now second.now second_text.now × whole.Zero records.old text.old }
    ensures result_value { step_answer result ≡ whole.room_for first.now second.now (length records.old) (length text.old) }
    ensures records_after { records.new ≡ whole.left_by (whole.room_for first.now second.now (length records.old) (length text.old)) (length records.old)
        (whole.tree_words first.now first_text.now second.now second_text.now) }
    ensures text_after { text.new ≡ whole.left_by (whole.room_for first.now second.now (length records.old) (length text.old)) (length text.old)
        (whole.tree_texts first.now first_text.now second.now second_text.now) }
{
    room_for(first, second, records.len(), text.len())?;
    put_tree(
        first,
        first_text,
        second,
        second_text,
        counts,
        nanos,
        records,
        text,
    );
    Ok(())
}

// 17, then 22, then room.
fn merge_used(
    first: &[u32],
    first_text: &[u8],
    second: &[u32],
    second_text: &[u8],
    records: &mut [u32],
    text: &mut [u8],
) -> Result<(), Cause>
    requires { whole.Sized first.now first_text.now second.now second_text.now × whole.Zero records.old text.old }
    ensures result_value { step_answer result ≡ whole.used_answer first.now second.now (length records.old) (length text.old) }
    ensures records_after { records.new ≡ whole.left_by (whole.used_answer first.now second.now (length records.old) (length text.old)) (length records.old)
        (whole.tree_words first.now first_text.now second.now second_text.now) }
    ensures text_after { text.new ≡ whole.left_by (whole.used_answer first.now second.now (length records.old) (length text.old)) (length text.old)
        (whole.tree_texts first.now first_text.now second.now second_text.now) }
{
    let a = report_in(first);
    let b = report_in(second);
    let sums = sums_of(a, b);
    let verdict = sums.verdict;
    let Verdict::Accepted = verdict else {
        return Err(Cause::CountLimit);
    };
    let nanos = nanos_of(a, b);
    if is_long(nanos) {
        return Err(Cause::TimeLimit);
    }
    let counts = sums.counts;
    place(
        first,
        first_text,
        second,
        second_text,
        counts,
        nanos,
        records,
        text,
    )
}

// Of longer areas only so much is used.
fn merge_known(
    first: &[u32],
    first_text: &[u8],
    second: &[u32],
    second_text: &[u8],
    records: &mut [u32],
    text: &mut [u8],
) -> Result<(), Cause>
    requires { (layout first.now first_text.now ≡ true) × (layout second.now second_text.now ≡ true)
        × (records.old ≡ zeros (length records.old)) × (text.old ≡ zeros (length text.old)) }
    ensures result_value { step_answer result
        ≡ merge_answer first.now first_text.now second.now second_text.now (length records.old) (length text.old) }
    ensures records_after { records.new
        ≡ records_left first.now first_text.now second.now second_text.now (length records.old) (length text.old) }
    ensures text_after { text.new
        ≡ text_left first.now first_text.now second.now second_text.now (length records.old) (length text.old) }
{
    let a = least(first.len(), limit::WORDS);
    let s = least(first_text.len(), limit::BYTES);
    let b = least(second.len(), limit::WORDS);
    let t = least(second_text.len(), limit::BYTES);
    let words = least(records.len(), limit::WORDS);
    let bytes = least(text.len(), limit::BYTES);
    merge_used(
        &first[..a],
        &first_text[..s],
        &second[..b],
        &second_text[..t],
        &mut records[..words],
        &mut text[..bytes],
    )
}

fn refuse(cause: Cause) -> Merging
    ensures { result ≡ merging_from (refused (late cause)) }
{
    Merging {
        verdict: Verdict::Refused,
        refusal: refuse_late(cause),
    }
}

fn merging_of(step: Result<(), Cause>) -> Merging
    ensures { result ≡ merging_from (outcome_of (step_answer step)) }
{
    match step {
        Ok(()) => Merging {
            verdict: Verdict::Accepted,
            refusal: no_refusal(),
        },
        Err(cause) => refuse(cause),
    }
}

// Puts the merged tree at the front of the two result areas, and zeros behind it; at a refusal all of them becomes zero (rules J1, J7 to J10).
pub fn merge(
    first: &[u32],
    first_text: &[u8],
    second: &[u32],
    second_text: &[u8],
    records: &mut [u32],
    text: &mut [u8],
) -> Merging
    ensures value { result ≡ merging_from (merged first.now first_text.now second.now second_text.now (length records.old) (length text.old)) }
    ensures records_after { records.new
        ≡ records_left first.now first_text.now second.now second_text.now (length records.old) (length text.old) }
    ensures text_after { text.new
        ≡ text_left first.now first_text.now second.now second_text.now (length records.old) (length text.old) }
{
    clear_tree(records, text);
    if !is_layout(first, first_text) {
        return refuse(Cause::NotLayout);
    }
    if !is_layout(second, second_text) {
        return refuse(Cause::NotLayout);
    }
    let step = merge_known(first, first_text, second, second_text, records, text);
    merging_of(step)
}
