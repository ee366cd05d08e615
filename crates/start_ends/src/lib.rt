// The earliest and the latest start of some records, and what one record more makes of them.
#![tactic(auto)]

ghost use Rattle.std.specs.Prelude.{◌≡◌, eqb};
ghost use Rattle.tree_stamp.specs.of_tree_record.Kinds as kinds;
ghost use Rattle.start_ends.specs.Nothing.{no_moment};
ghost use Rattle.start_ends.specs.inside.Ends as ends;

pub use span as the_span;
use span::sooner;
pub use span::the_instant;
use span::the_instant::{Instant, instant_by};
use span::the_timestamp::Moment;
pub use tree_stamp as the_tree_stamp;
use tree_stamp::moment_of;
pub use tree_stamp::the_days;
use tree_stamp::the_tree_record::{bit, field, has_bit, kind, word};

#[derive(Clone, Copy)]
pub struct Start {
    pub moment: Moment,
    pub at: Instant,
}

#[derive(Clone, Copy)]
pub struct Ends {
    pub first: Start,
    pub last: Start,
}

// Of two at the same instant the first stays.
fn earlier(a: Start, b: Start) -> Start
    ensures { result ≡ ends.earlier a b }
{
    if sooner(b.at, a.at) {
        return b;
    }
    a
}

fn later(a: Start, b: Start) -> Start
    ensures { result ≡ ends.later a b }
{
    if sooner(a.at, b.at) {
        return b;
    }
    a
}

fn with_start(e: Option<Ends>, s: Start) -> Option<Ends>
    ensures { result ≡ ends.with_start e s }
{
    match e {
        Some(e) => Some(Ends {
            first: earlier(e.first, s),
            last: later(e.last, s),
        }),
        None => Some(Ends { first: s, last: s }),
    }
}

fn start_at(days: &[u32], m: Moment) -> Start
    ensures { result ≡ ends.start_by days.now m }
{
    Start {
        moment: m,
        at: instant_by(days, m),
    }
}

// A dead case has another kind.
fn is_case(k: u32) -> bool
    ensures { result ≡ eqb k kinds.case }
{
    k == kind::CASE
}

// Cases alone count, and those without a timestamp don't; `days` is the table of days before years.
pub fn with_record(e: Option<Ends>, r: &[u32], days: &[u32]) -> Option<Ends>
    ensures { result ≡ ends.with_record (ends.start_by days.now) e r.now }
{
    if is_case(field(r, word::KIND)) {
        if has_bit(r, bit::TIMESTAMP) {
            return with_start(e, start_at(days, moment_of(r)));
        }
    }
    e
}

pub fn no_moment() -> Moment
    ensures { result ≡ no_moment }
{
    Moment {
        year: 0,
        month: 0,
        day: 0,
        hour: 0,
        minute: 0,
        second: 0,
        nanos: 0,
        offset: 0,
    }
}

pub fn no_ends() -> Option<Ends>
    ensures { result ≡ ends.no_ends }
{
    None
}
