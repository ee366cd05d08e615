// The first and the last start of a run: the earliest and the latest timestamp of a live case, and the span between them.
#![tactic(auto)]

ghost use Rattle.std.specs.Prelude.{◌≡◌};
ghost use Rattle.tree_layout.specs.of_refusal.Refusal.{refused, late};
ghost use Rattle.tree_layout.specs.of_refusal.declared.Cause.TheVariants as cause;
ghost use Rattle.list_sums.specs.inside.Rows.{records_in};
ghost use Rattle.start_ends.specs.inside.Ends as ends;
ghost use Rattle.starts.specs.Starts.{not_found_of, starts_of};
ghost use Rattle.starts.specs.Answer.{started_from};
ghost use Rattle.starts.specs.inside.Extents.{extent_of, starts_by};

pub use list_sums as the_list_sums;
use list_sums::rows::stands_here;
pub use list_values as the_list_values;
use start_ends::the_days::DAYS_BEFORE;
use start_ends::the_span::{nanos_between, seconds_between};
pub use start_ends::{the_instant, the_span, the_tree_stamp};
use start_ends::{Ends, Start, no_ends, no_moment, with_record};
pub use tree_layout as the_tree_layout;
use tree_layout::the_area::{least, limit};
use tree_layout::the_refusal::{Cause, Refusal, Verdict, no_refusal, refuse_late};
use tree_layout::the_timestamp::Moment;

// Without a start all else is zero: no Option, since it is a part of the answer that C takes.
#[derive(Clone, Copy)]
pub struct Extent {
    pub found: bool,
    pub first: Moment,
    pub last: Moment,
    pub seconds: u64,
    pub nanos: u32,
}

// The starts, or why there are none.
#[derive(Clone, Copy)]
pub struct Started {
    pub verdict: Verdict,
    pub starts: Extent,
    pub refusal: Refusal,
}

fn ends_in(words: &[u32], days: &[u32]) -> Option<Ends>
    ensures { result ≡ ends.ends_from (ends.start_by days.now) ends.no_ends (records_in words.now) }
{
    let mut e = no_ends();
    let mut at = 0;
    // while: ends where no record stands.
    while stands_here(&words[at..]) {
        let end = at + 32;
        e = with_record(e, &words[at..end], days);
        at = end;
    }
    e
}

// With the table of days in memory once.
fn ends_of(words: &[u32]) -> Option<Ends>
    ensures { result ≡ ends.ends_from ends.start_of ends.no_ends (records_in words.now) }
{
    ends_in(words, &DAYS_BEFORE)
}

fn not_found() -> Extent
    ensures { result ≡ not_found_of }
{
    Extent {
        found: false,
        first: no_moment(),
        last: no_moment(),
        seconds: 0,
        nanos: 0,
    }
}

fn between(a: Start, b: Start) -> Extent
    ensures { result ≡ extent_of a b }
{
    let first = a.moment;
    let last = b.moment;
    Extent {
        found: true,
        first,
        last,
        seconds: seconds_between(a.at, b.at),
        nanos: nanos_between(a.at, b.at),
    }
}

fn starts_of(e: Option<Ends>) -> Extent
    ensures { result ≡ starts_by e }
{
    match e {
        Some(e) => between(e.first, e.last),
        None => not_found(),
    }
}

fn refuse() -> Started
    ensures { result ≡ started_from (refused (late cause.NotLayout)) }
{
    Started {
        verdict: Verdict::Refused,
        starts: not_found(),
        refusal: refuse_late(Cause::NotLayout),
    }
}

// Refuses what is no layout.
pub fn starts(records: &[u32], text: &[u8]) -> Started
    ensures { result ≡ started_from (starts_of records.now text.now) }
{
    if !tree_layout::is_layout(records, text) {
        return refuse();
    }
    let limit = least(records.len(), limit::WORDS);
    let e = ends_of(&records[..limit]);
    Started {
        verdict: Verdict::Accepted,
        starts: starts_of(e),
        refusal: no_refusal(),
    }
}
