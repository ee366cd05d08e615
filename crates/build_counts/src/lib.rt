// The counts of a draft's report and suites.
#![tactic(auto)]

ghost use Rattle.std.specs.Prelude.{◌≡◌, List, ℕ, ◌≤◌};
ghost use Rattle.build_draft.specs.of_tree_record.Record.{number_at};
ghost use Rattle.build_draft.specs.of_tree_counts.Counts.{counted_from, with_suite, with_case};
ghost use Rattle.build_draft.specs.of_tree_counts.declared.Counts.{Counts as Sums};
ghost use Rattle.build_draft.specs.Draft.{draft_of};
ghost use Rattle.build_draft.specs.Parts.{counts_in, counts_at, put_disabled, put_counts, counting, summing};

use build_draft::the_refusal::{Cause, Verdict};
use build_draft::the_tree_counts::{Counted, Counts, Outcome};
use build_draft::the_tree_put::put_count;
use build_draft::the_tree_record::{bit, field, has_bit, kind, put_bit, word};
use build_draft::{Builder, is_of};

// The count at the words o and o + 1.
fn number_at(r: &[u32], o: usize) -> u64
    requires { o ≤ 30 }
    ensures { result ≡ number_at r.now o }
{
    let low = field(r, o);
    let high = field(r, o + 1);
    (low as u64) + (high as u64) * 4294967296
}

// Of the record at the front of the part.
pub fn counts_in(r: &[u32]) -> Counts
    ensures { result ≡ counts_in r.now }
{
    Counts {
        tests: number_at(r, word::TESTS),
        failures: number_at(r, word::FAILURES),
        errors: number_at(r, word::ERRORS),
        skipped: number_at(r, word::SKIPPED),
        presence: has_bit(r, bit::DISABLED),
        disabled: number_at(r, word::DISABLED),
    }
}

// Of record i.
fn counts_at(words: &[u32], i: u32) -> Counts
    ensures { result ≡ counts_at words.now i }
{
    let at = build_draft::the_area::least((i as usize) * 32, words.len());
    counts_in(&words[at..])
}

fn put_disabled(r: &mut [u32], presence: bool, n: u64)
    ensures { r.new ≡ put_disabled presence n r.old }
{
    if presence {
        put_count(r, word::DISABLED, n);
        put_bit(r, bit::DISABLED);
    }
}

// Into the record at the front of the part.
#[tactic(auto, unfolding(build_draft::specs::Parts::put_counts))]
pub fn put_counts(r: &mut [u32], c: Counts)
    ensures { r.new ≡ put_counts c r.old }
{
    put_count(r, word::TESTS, c.tests);
    put_count(r, word::FAILURES, c.failures);
    put_count(r, word::ERRORS, c.errors);
    put_count(r, word::SKIPPED, c.skipped);
    put_disabled(r, c.presence, c.disabled);
}

// The counts that a method gave go into record i, unless it refused.
fn put_counted(b: Builder, records: &mut [u32], i: u32, counted: Counted) -> Result<Builder, Cause>
    ensures { (text : List ℕ) (old more : Sums) → counted ≡ counted_from old (with_suite old more)
        → draft_of result records.new text ≡ counting i (with_suite old more) (record { builder = b; words = records.old; text = text }) }
{
    let Verdict::Accepted = counted.verdict else {
        return Err(Cause::CountLimit);
    };
    let at = build_draft::the_area::least((i as usize) * 32, records.len());
    let c = counted.counts;
    put_counts(&mut records[at..], c);
    Ok(b)
}

// The open suite's counts are added to the report's, if one is open (rule B8).
#[tactic(auto, unfolding(build_draft::specs::Parts::summing, build_draft::specs::Draft::draft_of))]
pub fn sum_suite(b: Builder, records: &mut [u32]) -> Result<Builder, Cause>
    ensures { (text : List ℕ) → draft_of result records.new text ≡ summing (record { builder = b; words = records.old; text = text }) }
{
    if !is_of(b, records, b.suite, kind::SUITE) {
        return Ok(b);
    }
    let report = counts_at(records, b.report);
    let suite = counts_at(records, b.suite);
    put_counted(b, records, b.report, report.add_test_suite(suite))
}

// A case of this outcome is added to the open suite's counts (rule B8).
pub fn count_case(b: Builder, records: &mut [u32], outcome: Outcome) -> Result<Builder, Cause>
    ensures { (text : List ℕ) → draft_of result records.new text
        ≡ counting b.suite (with_case (counts_at records.old b.suite) outcome) (record { builder = b; words = records.old; text = text }) }
{
    let suite = counts_at(records, b.suite);
    put_counted(b, records, b.suite, suite.add_test_case(outcome))
}
