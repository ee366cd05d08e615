// The record of a merged report, from the two reports' records: each stands at the front of the part it is given as.
#![tactic(auto)]

ghost use Rattle.std.specs.Prelude.{◌≡◌, ◌||◌, ◌+◌, ◌<◌};
ghost use Rattle.tree_values.specs.of_tree_record.Record.{live};
ghost use Rattle.tree_merge.specs.of_tree_report.ReportOf.{only};
ghost use Rattle.tree_merge.specs.of_list_sums.inside.Rows.{records_in};
ghost use Rattle.tree_merge.specs.of_tree_counts.Counts.{counted_from, with_suite};
ghost use Rattle.build_counts.specs.of_build_draft.Parts.{counts_in};
ghost use Rattle.merge_head.specs.inside.Head as head;

use build_counts::{counts_in, put_counts};
use tree_merge::the_instant::instant_of;
use tree_merge::the_list_sums::rows::stands_here;
use tree_merge::the_span::sooner;
use tree_merge::the_tree_counts::{Counted, Counts};
use tree_merge::the_tree_stamp::moment_of;
pub use tree_values as the_tree_values;
pub use tree_values::the_tree_put;
use tree_values::the_tree_put::put_text;
use tree_values::the_tree_record::{bit, field, has_bit, kind, put_field, word};
use tree_values::{put_moment, put_time};

// The first live record, which is the report's in every layout.
pub fn report_in(words: &[u32]) -> &[u32]
    ensures { result.now ≡ head.first_of (only live (records_in words.now)) }
{
    let mut at = 0;
    // while: each turn passes a whole record.
    while stands_here(&words[at..]) {
        let end = at + 32;
        let k = field(&words[at..end], word::KIND);
        if k < kind::DEAD {
            return &words[at..end];
        }
        at = end;
    }
    &words[..0]
}

// The sums of the two reports' own counts, or 17.
pub fn sums_of(a: &[u32], b: &[u32]) -> Counted
    ensures { result ≡ counted_from (counts_in a.now) (with_suite (counts_in a.now) (counts_in b.now)) }
{
    let own = counts_in(a);
    own.add_test_suite(counts_in(b))
}

// A time in nanoseconds, 0 where it is missing.
fn nanos_in(r: &[u32]) -> u64
    ensures value { result ≡ head.nanos_in r.now }
    ensures upper_bound { result < 4294967300000000000 }
{
    if has_bit(r, bit::TIME) {
        return field(r, word::SECONDS) as u64 * 1000000000 + field(r, word::TIME_NANOS) as u64;
    }
    0
}

pub fn nanos_of(a: &[u32], b: &[u32]) -> u64
    ensures { result ≡ head.nanos_in a.now + head.nanos_in b.now }
{
    nanos_in(a) + nanos_in(b)
}

// How many bytes the name has, 0 where it is missing.
pub fn name_size(a: &[u32]) -> u64
    ensures value { result ≡ head.name_size a.now }
    ensures upper_bound { result < 4294967296 }
{
    if has_bit(a, bit::NAME) {
        return field(a, word::NAME + 1) as u64;
    }
    0
}

fn put_name(out: &mut [u32], a: &[u32])
    ensures { out.new ≡ head.put_name a.now out.old }
{
    if has_bit(a, bit::NAME) {
        put_text(out, word::NAME, bit::NAME, 0, field(a, word::NAME + 1));
    }
}

// Of two at the same instant the first stays.
fn is_earlier(b: &[u32], a: &[u32]) -> bool
    ensures { result ≡ head.is_earlier b.now a.now }
{
    sooner(instant_of(moment_of(b)), instant_of(moment_of(a)))
}

// Whether the second's timestamp is the one.
fn is_second(a: &[u32], b: &[u32]) -> bool
    ensures { result ≡ head.is_second a.now b.now }
{
    has_bit(b, bit::TIMESTAMP) & (!has_bit(a, bit::TIMESTAMP) | is_earlier(b, a))
}

fn put_stamp(out: &mut [u32], r: &[u32])
    ensures { out.new ≡ head.put_stamp r.now out.old }
{
    if has_bit(r, bit::TIMESTAMP) {
        put_moment(out, moment_of(r));
    }
}

fn put_start(out: &mut [u32], a: &[u32], b: &[u32])
    ensures { out.new ≡ head.put_start a.now b.now out.old }
{
    if is_second(a, b) {
        put_stamp(out, b);
        return;
    }
    put_stamp(out, a);
}

fn put_total(out: &mut [u32], a: &[u32], b: &[u32], nanos: u64)
    requires { nanos < 8388608000000000 }
    ensures { out.new ≡ head.put_total a.now b.now nanos out.old }
{
    if has_bit(a, bit::TIME) | has_bit(b, bit::TIME) {
        put_time(
            out,
            (nanos / 1000000000) as u32,
            (nanos % 1000000000) as u32,
        );
    }
}

// Into a record of zeros.
pub fn put_head(out: &mut [u32], a: &[u32], b: &[u32], counts: Counts, nanos: u64)
    requires { nanos < 8388608000000000 }
    ensures { out.new ≡ head.head_of a.now b.now counts nanos out.old }
{
    put_field(out, word::KIND, kind::REPORT);
    put_name(out, a);
    put_start(out, a, b);
    put_total(out, a, b, nanos);
    put_counts(out, counts);
}
