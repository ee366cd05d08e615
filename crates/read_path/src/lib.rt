// The path of where reading stands, and of a refusal.
#![tactic(auto)]

ghost use Rattle.std.specs.Prelude.{◌≡◌, ℕ, Bool, List};
ghost use Rattle.read_place.specs.of_read_state.Control as plan;
ghost use Rattle.read_place.specs.of_read_state.inside.Coded.{level_of, output_of, mode_of, opening, closing, act_of};
ghost use Rattle.read_path.specs.Paths as standing;
ghost use Rattle.read_place.specs.inside.Coded.{marks_of};
ghost use Rattle.read_path.specs.inside.Coded.{Leads};

use read_fault::element_of;
use read_place::Marks;
use read_place::the_read_state::{Act, Control, Level, Mode, Output};
use read_rules::the_refusal::{NOWHERE, Path, PathElement};
use read_rules::the_tree_record::kind::{CASE, REPORT, SUITE};

#[tactic(auto, using(crate::proofs::Leading::leads_with, crate::proofs::Leading::leads_new))]
fn root() -> Path
    ensures { Leads result standing.root }
{
    Path::new().with(element_of(1, NOWHERE, NOWHERE))
}

#[tactic(auto, using(crate::proofs::Leading::leads_with))]
fn suite_path(m: Marks) -> Path
    ensures { Leads result (standing.suite_path (marks_of m)) }
{
    root().with(element_of(2, m.suite_index, m.suite_start))
}

// With the indices of suite and case (rule F4).
#[tactic(auto, using(crate::proofs::Leading::leads_with))]
fn case_path(m: Marks) -> Path
    ensures { Leads result (standing.case_path (marks_of m)) }
{
    suite_path(m).with(element_of(3, m.case_index, m.case_start))
}

#[tactic(auto, using(crate::proofs::Leading::leads_with))]
fn level_path(level: Level, m: Marks) -> Path
    ensures { Leads result (standing.level_path (level_of level) (marks_of m)) }
{
    match level {
        Level::Top => root(),
        Level::Suite => suite_path(m),
        Level::Case => case_path(m),
        Level::Status => case_path(m).with(element_of(m.status_kind, NOWHERE, NOWHERE)),
    }
}

// The path of a stack trace ends in Attribute `stackTrace` (rule F8).
fn output_element(output: Output) -> PathElement
    ensures { result ≡ standing.output_element (output_of output) }
{
    match output {
        Output::Trace => element_of(16, 15, NOWHERE),
        Output::Out => element_of(14, NOWHERE, NOWHERE),
        Output::Err => element_of(15, NOWHERE, NOWHERE),
    }
}

// The path of where reading stands (rules R18 and F7).
#[tactic(auto, using(crate::proofs::Leading::leads_with, crate::proofs::Lengths::level_room))]
fn mode_path(control: Control, m: Marks) -> Path
    ensures { Leads result (standing.mode_path (mode_of control) (marks_of m)) }
{
    let path = level_path(control.level, m);
    match control.mode {
        Mode::At => path,
        Mode::Text => path.with(output_element(control.output)),
        Mode::List => path.with(element_of(4, NOWHERE, NOWHERE)),
    }
}

// A suite or case has no event number while it is opened (rule F5).
#[tactic(auto, using(crate::proofs::Leading::leads_with, crate::proofs::Leading::opening_other))]
fn opening_path(kind: u32, m: Marks) -> Path
    ensures { (empty : Bool) (mode : plan.Mode) → Leads result (standing.path_of (opening kind empty) mode (marks_of m)) }
{
    match kind {
        REPORT => root(),
        SUITE => root().with(element_of(2, m.suite_index, NOWHERE)),
        CASE => suite_path(m).with(element_of(3, m.case_index, NOWHERE)),
        _ => case_path(m).with(element_of(kind, NOWHERE, NOWHERE)),
    }
}

fn closing_path(level: Level, m: Marks) -> Path
    ensures { (mode : plan.Mode) → Leads result (standing.path_of (closing (level_of level)) mode (marks_of m)) }
{
    match level {
        Level::Top | Level::Suite => root(),
        Level::Case | Level::Status => level_path(level, m),
    }
}

#[tactic(auto, using(crate::proofs::Leading::leads_with, crate::proofs::Lengths::level_room))]
fn text_path(level: Level, output: Output, m: Marks) -> Path
    ensures { (mode : plan.Mode) → Leads result (standing.path_of (plan.close_text (level_of level) (output_of output)) mode (marks_of m)) }
{
    level_path(level, m).with(output_element(output))
}

#[tactic(auto, using(crate::proofs::Leading::leads_two, crate::proofs::Lengths::level_short))]
fn property_path(level: Level, m: Marks) -> Path
    ensures { (empty : Bool) (name : List ℕ) (mode : plan.Mode) → Leads result (standing.path_of (plan.read_property (level_of level) empty name) mode (marks_of m)) }
{
    let list = level_path(level, m).with(element_of(4, NOWHERE, NOWHERE));
    list.with(element_of(5, m.property_index, NOWHERE))
}

// The path of a refusal at an action, of at most six elements (rule F3).
#[tactic(auto, using(crate::proofs::Leading::leads_close, crate::proofs::Leading::leads_new))]
pub fn path_of(act: Act, control: Control, m: Marks) -> Path
    ensures { (name : List ℕ) → Leads result (standing.path_of (act_of control name act) (mode_of control) (marks_of m)) }
{
    let level = control.level;
    match act {
        Act::Open(kind, _) => opening_path(kind, m),
        Act::Close => closing_path(level, m),
        Act::CloseText(output) => text_path(level, output, m),
        Act::ReadProperty(_) => property_path(level, m),
        Act::Broken(_) => mode_path(control, m),
        Act::Missing => Path::new(),
        Act::Pass | Act::Skip | Act::OpenText(_) | Act::OpenList(_) | Act::CloseList | Act::Stop =>
            root(),
    }
}
