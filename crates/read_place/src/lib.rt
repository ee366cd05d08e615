// Where reading stands: event numbers, indices and records.
#![tactic(auto)]

ghost use Rattle.std.specs.Prelude.{◌≡◌, ℕ, ◌≤◌, Bool, List};
ghost use Rattle.read_state.specs.Control as plan;
ghost use Rattle.read_state.specs.inside.Coded.{level_of, opening, closing, act_of};
ghost use Rattle.read_place.specs.Marks as standing;
ghost use Rattle.read_place.specs.inside.Coded.{marks_of, go_to, counting, Low};

pub use read_state as the_read_state;
use read_state::the_tree_record::kind::{CASE, REPORT, SUITE};
use read_state::{Act, Control, Level};

// The event being read; index and Start of the open suite and case; the open status element's kind; the number of properties
// read in the open list; the records of the open suite, case and status element.
#[derive(Clone, Copy)]
pub struct Marks {
    pub event: usize,
    pub suite_index: u32,
    pub suite_start: u32,
    pub case_index: u32,
    pub case_start: u32,
    pub status_kind: u32,
    pub property_index: u32,
    pub suite_at: usize,
    pub case_at: usize,
    pub status_at: usize,
}

pub fn no_marks(event: usize) -> Marks
    ensures { marks_of result ≡ standing.marks event 0 0 0 0 0 0 0 0 0 }
{
    Marks {
        event,
        suite_index: 0,
        suite_start: 0,
        case_index: 0,
        case_start: 0,
        status_kind: 0,
        property_index: 0,
        suite_at: 0,
        case_at: 0,
        status_at: 0,
    }
}

// An Empty element is closed at once, and so counted at once.
fn more(empty: bool, n: u32) -> u32
    requires { n ≤ 65536 }
    ensures { result ≡ standing.more empty n }
{
    if empty { n + 1 } else { n }
}

#[tactic(auto, unfolding(crate::specs::Marks::marks_after))]
fn at_suite(marks: Marks, empty: bool, n: usize) -> Marks
    requires { Low 65536 (marks_of marks) }
    ensures { marks_of result ≡ standing.marks_after (plan.open_suite empty) n (marks_of marks) }
{
    Marks {
        suite_index: more(empty, marks.suite_index),
        suite_start: marks.event as u32,
        suite_at: n,
        ..no_marks(marks.event)
    }
}

#[tactic(auto, unfolding(crate::specs::Marks::marks_after))]
fn at_case(marks: Marks, empty: bool, n: usize) -> Marks
    requires { Low 65536 (marks_of marks) }
    ensures { marks_of result ≡ standing.marks_after (plan.open_case empty) n (marks_of marks) }
{
    Marks {
        case_index: more(empty, marks.case_index),
        case_start: marks.event as u32,
        status_kind: 0,
        property_index: 0,
        case_at: n,
        status_at: 0,
        ..marks
    }
}

#[tactic(auto, unfolding(crate::specs::Marks::marks_after))]
fn at_status(marks: Marks, kind: u32, n: usize) -> Marks
    ensures { (empty : Bool) → marks_of result ≡ standing.marks_after (plan.open_status kind empty) n (marks_of marks) }
{
    Marks {
        status_kind: kind,
        property_index: 0,
        status_at: n,
        ..marks
    }
}

// The marks behind an opening; n records stood before it.
#[tactic(auto, using(crate::proofs::Lasting::report_opens, read_state::proofs::Turning::opening_other))]
fn opened(marks: Marks, kind: u32, empty: bool, n: usize) -> Marks
    requires { Low 65536 (marks_of marks) }
    ensures { marks_of result ≡ standing.marks_after (opening kind empty) n (marks_of marks) }
{
    match kind {
        REPORT => no_marks(marks.event),
        SUITE => at_suite(marks, empty, n),
        CASE => at_case(marks, empty, n),
        _ => at_status(marks, kind, n),
    }
}

#[tactic(auto, unfolding(crate::specs::Marks::marks_after))]
fn behind_suite(marks: Marks) -> Marks
    requires { Low 65536 (marks_of marks) }
    ensures { (n : ℕ) → marks_of result ≡ standing.marks_after plan.close_suite n (marks_of marks) }
{
    Marks {
        suite_index: marks.suite_index + 1,
        status_kind: 0,
        property_index: 0,
        status_at: 0,
        ..marks
    }
}

#[tactic(auto, unfolding(crate::specs::Marks::marks_after))]
fn behind_case(marks: Marks) -> Marks
    requires { Low 65536 (marks_of marks) }
    ensures { (n : ℕ) → marks_of result ≡ standing.marks_after plan.close_case n (marks_of marks) }
{
    Marks {
        case_index: marks.case_index + 1,
        status_kind: 0,
        property_index: 0,
        status_at: 0,
        ..marks
    }
}

// The marks behind the element of a level that is closed.
#[tactic(auto, using(crate::proofs::Lasting::status_closes))]
fn closed(marks: Marks, level: Level) -> Marks
    requires { Low 65536 (marks_of marks) }
    ensures { (n : ℕ) → marks_of result ≡ standing.marks_after (closing (level_of level)) n (marks_of marks) }
{
    match level {
        Level::Top | Level::Suite => behind_suite(marks),
        Level::Case => behind_case(marks),
        Level::Status => marks,
    }
}

fn at_property(marks: Marks, index: u32) -> Marks
    ensures { marks_of result ≡ counting index (marks_of marks) }
{
    Marks {
        property_index: index,
        ..marks
    }
}

// The marks behind an action, with the indices of rule F4; n records stood before it.
#[tactic(auto, using(crate::proofs::Lasting::closes), unfolding(crate::specs::Marks::marks_after, read_state::specs::Control::or_skip))]
pub fn marked(act: Act, control: Control, n: usize, marks: Marks) -> Marks
    requires { Low 65536 (marks_of marks) }
    ensures { (name : List ℕ) → marks_of result ≡ standing.marks_after (act_of control name act) n (marks_of marks) }
{
    match act {
        Act::Open(kind, empty) => opened(marks, kind, empty, n),
        Act::Close => closed(marks, control.level),
        Act::OpenList(_) => at_property(marks, 0),
        Act::ReadProperty(_) => at_property(marks, marks.property_index + 1),
        Act::Pass
        | Act::Skip
        | Act::OpenText(_)
        | Act::CloseText(_)
        | Act::CloseList
        | Act::Stop
        | Act::Missing
        | Act::Broken(_) => marks,
    }
}

pub fn onward(marks: Marks, event: usize) -> Marks
    ensures { marks_of result ≡ go_to event (marks_of marks) }
{
    Marks { event, ..marks }
}
