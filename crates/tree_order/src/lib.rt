// The order of the live records: docs/TREE.md.
#![tactic(auto)]

ghost use Rattle.std.specs.Prelude.{◌≡◌, ◌≤◌, ◌&&◌, length, leb, min};
ghost use Rattle.tree_report.specs.of_tree_status.Status.{Few};
ghost use Rattle.tree_report.specs.Layout as tree;
ghost use Rattle.tree_order.specs.inside.Open.{number_of, state_of, fresh_of, status_behind};

use tree_report::the_tree_record::{bit, has_bit, kind, word};
use tree_report::the_tree_status::{Tally, is_ruled, no_status, tallied};

// A list of properties: not begun, at hand, or over because another record came.
#[derive(Clone, Copy)]
pub enum Properties {
    Unbegun,
    AtHand,
    Over,
}

// Each number is one of the three: all above 1 are a list that is over.
impl From<u32> for Properties {
    fn from(n: u32) -> Properties
        ensures { number_of result ≡ min n 2 }
    {
        match n {
            0 => Properties::Unbegun,
            1 => Properties::AtHand,
            _ => Properties::Over,
        }
    }
}

// What is open behind a record: `level` elements, a report, a suite and a case.
#[derive(Clone, Copy)]
pub struct State {
    pub level: u32,
    pub extras: bool,
    pub suitelist: Properties,
    pub caselist: Properties,
    pub tally: Tally,
    pub flagged: bool,
}

// Just opened: no property, no status element yet.
fn fresh(level: u32, extras: bool, suitelist: Properties) -> State
    ensures { state_of result ≡ fresh_of level extras (number_of suitelist) }
{
    State {
        level,
        extras,
        suitelist,
        caselist: Properties::Unbegun,
        tally: no_status(),
        flagged: false,
    }
}

pub fn nothing() -> State
    ensures { state_of result ≡ tree.nothing }
{
    fresh(0, false, Properties::Unbegun)
}

// An open case may end.
fn may_end(o: State) -> bool
    ensures { result ≡ tree.may_end (state_of o) }
{
    let t = o.tally;
    is_ruled(t) & (!o.flagged | ((t.flaky == 0) & (t.reruns == 0)))
}

// The records may stop here.
pub fn may_stop(o: State) -> bool
    ensures { result ≡ (leb 1 o.level && tree.may_end (state_of o)) }
{
    (1 <= o.level) & may_end(o)
}

fn may_go_on(p: Properties) -> bool
    ensures { result ≡ leb (number_of p) 1 }
{
    !matches!(p, Properties::Over)
}

// A live record may stand here (rule M10).
pub fn may_follow(o: State, r: &[u32]) -> bool
    requires { 32 ≤ length r.now }
    ensures { result ≡ tree.may_follow (state_of o) r.now }
{
    let k = r[word::KIND];
    let done = may_end(o);
    match k {
        kind::REPORT => o.level == 0,
        kind::SUITE => (1 <= o.level) & done,
        kind::CASE => (2 <= o.level) & done,
        kind::SUITE_PROPERTY => (2 <= o.level) & (done & may_go_on(o.suitelist)),
        kind::CASE_PROPERTY => (o.level == 3) & may_go_on(o.caselist),
        kind::SUITE_EXTRA => (o.level == 2) & o.extras,
        kind::CASE_EXTRA => (o.level == 3) & o.extras,
        _ => o.level == 3,
    }
}

// A list of properties that is at hand is over once another record comes.
fn over(p: Properties) -> Properties
    ensures { number_of result ≡ tree.over (number_of p) }
{
    match p {
        Properties::AtHand => Properties::Over,
        _ => p,
    }
}

// Behind a status element.
fn with_status(o: State, r: &[u32]) -> State
    requires { (32 ≤ length r.now) × Few 4294967294 o.tally }
    ensures { state_of result ≡ status_behind (state_of o) r.now }
{
    State {
        level: 3,
        extras: false,
        caselist: over(o.caselist),
        tally: tallied(o.tally, r[word::KIND]),
        flagged: o.flagged | has_bit(r, bit::FLAKY),
        ..o
    }
}

pub fn following(o: State, r: &[u32]) -> State
    requires { (32 ≤ length r.now) × Few 4294967294 o.tally }
    ensures { state_of result ≡ tree.following (state_of o) r.now }
{
    let k = r[word::KIND];
    match k {
        kind::REPORT => fresh(1, true, Properties::Unbegun),
        kind::SUITE => fresh(2, true, Properties::Unbegun),
        kind::CASE => fresh(3, true, over(o.suitelist)),
        kind::SUITE_PROPERTY => fresh(2, false, Properties::AtHand),
        kind::CASE_PROPERTY => State {
            level: 3,
            extras: false,
            caselist: Properties::AtHand,
            ..o
        },
        kind::SUITE_EXTRA => o,
        kind::CASE_EXTRA => o,
        _ => with_status(o, r),
    }
}
