// What is done at a tag, at Eof and at a Fault, by kinds and tag names alone (rules R3 to R16, R18 and S2 to S4).
#![tactic(auto)]

ghost use Rattle.std.specs.Prelude.{◌≡◌, ℕ, List, [], cond};
ghost use Rattle.read_children.specs.of_names.Tags.{tag_of};
ghost use Rattle.read_children.specs.of_table.Event.{Start, Empty, tag_kind};
ghost use Rattle.read_children.specs.of_read_state.Control as plan;
ghost use Rattle.read_rules.specs.Rules as rules;
ghost use Rattle.read_children.specs.of_read_state.inside.Coded.{level_of, output_of, mode_of, is_top, act_in, act_of};

pub use read_children as the_read_children;
use read_children::the_names::tag::{
    PROPERTIES, PROPERTY, STACK_TRACE, SYSTEM_ERR, SYSTEM_OUT, TESTCASE, TESTSUITE, TESTSUITES,
};
use read_children::the_read_state::{Act, Control, Level, Mode, Output};
use read_children::the_refusal::Cause;
use read_children::the_table::kind::{EMPTY, START};
use read_children::the_tree_record::kind::{CASE, REPORT, SUITE};
pub use read_children::{the_names, the_refusal, the_table, the_tree_record, the_tree_status};
use read_children::{child, is_status, list_of, step_status};

// By rules R3 to R5.
#[tactic(auto, using(crate::proofs::Planning::top_opens))]
fn open_top(seen: bool, tag: usize, empty: bool) -> Act
    ensures { (name : List ℕ) → act_in (plan.at plan.top) name result ≡ rules.at_top seen (cond empty Empty Start) tag }
{
    if tag == TESTSUITES {
        return Act::Open(REPORT, empty);
    }
    if (tag == TESTSUITE) & seen {
        return Act::Open(SUITE, empty);
    }
    Act::Pass
}

// By rules R6 and R7; an End `testsuites` without a report is refused (rule R9).
#[tactic(auto, using(crate::proofs::Planning::kind_end), unfolding(crate::specs::Rules::at_top))]
fn step_top(seen: bool, kind: u32, tag: usize) -> Act
    ensures { (name : List ℕ) → act_in (plan.at plan.top) name result ≡ rules.at_top seen (tag_kind kind) tag }
{
    match kind {
        START => open_top(seen, tag, false),
        EMPTY => open_top(seen, tag, true),
        _ => {
            if tag != TESTSUITES {
                return Act::Pass;
            }
            if seen { Act::Stop } else { Act::Missing }
        }
    }
}

#[tactic(auto, using(crate::proofs::Planning::suite_opens))]
fn open_suite(tag: usize, empty: bool) -> Act
    ensures { (name : List ℕ) → tag_of name ≡ tag → act_in (plan.at plan.suite) name result ≡ rules.at_suite (cond empty Empty Start) name }
{
    match tag {
        TESTCASE => Act::Open(CASE, empty),
        PROPERTIES => list_of(empty),
        _ => child(tag, empty),
    }
}

// By rules R10 and R13; any End but the element's own is passed over (rule R12).
#[tactic(auto, using(crate::proofs::Planning::kind_end), unfolding(crate::specs::Rules::at_suite))]
fn step_suite(kind: u32, tag: usize) -> Act
    ensures { (name : List ℕ) → tag_of name ≡ tag → act_in (plan.at plan.suite) name result ≡ rules.at_suite (tag_kind kind) name }
{
    match kind {
        START => open_suite(tag, false),
        EMPTY => open_suite(tag, true),
        _ => {
            if tag == TESTSUITE {
                Act::Close
            } else {
                Act::Pass
            }
        }
    }
}

#[tactic(auto, using(crate::proofs::Planning::case_opens, crate::proofs::Planning::status_most, crate::proofs::Planning::opening_status))]
fn open_case(tag: usize, empty: bool) -> Act
    ensures { (name : List ℕ) → tag_of name ≡ tag → act_in (plan.at plan.case) name result ≡ rules.at_case (cond empty Empty Start) name }
{
    if is_status(tag) {
        return Act::Open(tag as u32, empty);
    }
    if tag == PROPERTIES {
        return list_of(empty);
    }
    child(tag, empty)
}

// By rules R10, R12 and R13, as in a suite.
#[tactic(auto, using(crate::proofs::Planning::kind_end), unfolding(crate::specs::Rules::at_case))]
fn step_case(kind: u32, tag: usize) -> Act
    ensures { (name : List ℕ) → tag_of name ≡ tag → act_in (plan.at plan.case) name result ≡ rules.at_case (tag_kind kind) name }
{
    match kind {
        START => open_case(tag, false),
        EMPTY => open_case(tag, true),
        _ => {
            if tag == TESTCASE {
                Act::Close
            } else {
                Act::Pass
            }
        }
    }
}

// The tag whose next End ends the text (rule R14).
fn tag_of_output(output: Output) -> usize
    ensures { result ≡ rules.tag_of_output (output_of output) }
{
    match output {
        Output::Trace => STACK_TRACE,
        Output::Out => SYSTEM_OUT,
        Output::Err => SYSTEM_ERR,
    }
}

// Tags are passed over, and their depth isn't counted (rule R14).
#[tactic(auto, using(crate::proofs::Planning::text_closes))]
pub fn step_text(output: Output, kind: u32, tag: usize) -> Act
    ensures { (l : plan.Level) (name : List ℕ) → act_in (plan.gathering l (output_of output)) name result ≡ rules.in_text l (output_of output) (tag_kind kind) tag }
{
    if (EMPTY < kind) & (tag == tag_of_output(output)) {
        return Act::CloseText(output);
    }
    Act::Pass
}

// A `property` counts in either spelling (rule R16).
#[tactic(auto, using(crate::proofs::Planning::list_opens))]
fn open_property(tag: usize, empty: bool) -> Act
    ensures { (l : plan.Level) (name : List ℕ) → tag_of name ≡ tag → act_in (plan.listing l) name result ≡ rules.in_list_of l (cond empty Empty Start) name }
{
    if tag == PROPERTY {
        return Act::ReadProperty(empty);
    }
    Act::Pass
}

// An Empty `properties` ends nothing (rule R15).
#[tactic(auto, using(crate::proofs::Planning::kind_end), unfolding(crate::specs::Rules::in_list_of))]
pub fn step_list(kind: u32, tag: usize) -> Act
    ensures { (l : plan.Level) (name : List ℕ) → tag_of name ≡ tag → act_in (plan.listing l) name result ≡ rules.in_list_of l (tag_kind kind) name }
{
    match kind {
        START => open_property(tag, false),
        EMPTY => open_property(tag, true),
        _ => {
            if tag == PROPERTIES {
                Act::CloseList
            } else {
                Act::Pass
            }
        }
    }
}

#[tactic(auto, unfolding(crate::specs::Rules::plan_at))]
fn step_inside(control: Control, kind: u32, tag: usize) -> Act
    ensures { (name : List ℕ) → tag_of name ≡ tag → act_in (plan.at (level_of control.level)) name result ≡ rules.plan_at (plan.at (level_of control.level)) control.seen (tag_kind kind) name }
{
    match control.level {
        Level::Top => step_top(control.seen, kind, tag),
        Level::Suite => step_suite(kind, tag),
        Level::Case => step_case(kind, tag),
        Level::Status => step_status(kind, tag),
    }
}

// A Start, Empty or End with the code of its name.
#[tactic(auto, unfolding(crate::specs::Rules::plan_at))]
pub fn plan_tag(control: Control, kind: u32, tag: usize) -> Act
    ensures { (name : List ℕ) → tag_of name ≡ tag → act_of control name result ≡ rules.plan_at (mode_of control) control.seen (tag_kind kind) name }
{
    match control.mode {
        Mode::At => step_inside(control, kind, tag),
        Mode::Text => step_text(control.output, kind, tag),
        Mode::List => step_list(kind, tag),
    }
}

fn is_top(control: Control) -> bool
    ensures { result ≡ is_top (mode_of control) }
{
    matches!(control.mode, Mode::At) && matches!(control.level, Level::Top)
}

// At report level by rules R8 and R9, in an element by rule R18.
#[tactic(auto, using(crate::proofs::Planning::eof_plans))]
pub fn plan_eof(control: Control) -> Act
    ensures { act_of control [] result ≡ rules.plan_eof (mode_of control) control.seen control.closed }
{
    if !is_top(control) {
        return Act::Broken(Cause::EofInElement);
    }
    if !control.seen {
        return Act::Missing;
    }
    if control.closed {
        return Act::Stop;
    }
    Act::Broken(Cause::EofInElement)
}
