// What reading goes by between events: what is open, and what an action turns it into.
#![tactic(auto)]

ghost use Rattle.std.specs.Prelude.{◌≡◌, ℕ, List, cond};
ghost use Rattle.tree_status.specs.Status.{Few};
ghost use Rattle.read_state.specs.Control as plan;
ghost use Rattle.read_state.specs.inside.Coded.{level_of, output_of, mode_at, control_of, opening, closing, turned};

pub use refusal as the_refusal;
use refusal::Cause;
pub use tree_status as the_tree_status;
pub use tree_status::the_tree_record;
use tree_status::the_tree_record::kind;
use tree_status::{Tally, no_status, tallied};

// What is open.
#[derive(Clone, Copy)]
pub enum Level {
    Top,
    Suite,
    Case,
    Status,
}

// Which text is gathered.
#[derive(Clone, Copy)]
pub enum Output {
    Trace,
    Out,
    Err,
}

// Inside the element that is open, in a gathered text of it, or in its properties.
#[derive(Clone, Copy)]
pub enum Mode {
    At,
    Text,
    List,
}

// `output` is the text that is gathered, if any; `seen`: a report exists; `closed`: the table counts as closed.
#[derive(Clone, Copy)]
pub struct Control {
    pub mode: Mode,
    pub level: Level,
    pub output: Output,
    pub seen: bool,
    pub closed: bool,
    pub tally: Tally,
}

// What is done: an element is opened by its record's kind. A bool says that the tag is Empty; an Empty output is closed where
// it stands.
#[derive(Clone, Copy)]
pub enum Act {
    Pass,
    Skip,
    Open(u32, bool),
    Close,
    OpenText(Output),
    CloseText(Output),
    OpenList(bool),
    CloseList,
    ReadProperty(bool),
    Stop,
    Missing,
    Broken(Cause),
}

fn inside(control: Control, level: Level, tally: Tally) -> Control
    ensures { control_of result ≡ plan.control (plan.at (level_of level)) control.seen control.closed tally }
{
    Control {
        mode: Mode::At,
        level,
        output: Output::Out,
        tally,
        ..control
    }
}

// Behind an Empty one the table counts as closed (rule R4).
#[tactic(auto, using(crate::proofs::Turning::controls), unfolding(crate::specs::Control::turn))]
fn reported(control: Control, empty: bool) -> Control
    ensures { control_of result ≡ plan.turn (plan.open_report empty) (control_of control) }
{
    Control {
        mode: Mode::At,
        level: Level::Top,
        output: Output::Out,
        seen: true,
        closed: empty | control.closed,
        tally: no_status(),
    }
}

fn either(empty: bool, outer: Level, inner: Level) -> Level
    ensures { level_of result ≡ cond empty (level_of outer) (level_of inner) }
{
    if empty { outer } else { inner }
}

// The control inside an element that is opened.
#[tactic(auto, using(crate::proofs::Turning::controls, crate::proofs::Turning::opening_other), unfolding(crate::specs::Control::turn))]
fn opened(control: Control, k: u32, empty: bool) -> Control
    requires { Few 4294967294 control.tally }
    ensures { control_of result ≡ plan.turn (opening k empty) (control_of control) }
{
    match k {
        kind::REPORT => reported(control, empty),
        kind::SUITE => inside(
            control,
            either(empty, Level::Top, Level::Suite),
            no_status(),
        ),
        kind::CASE => inside(
            control,
            either(empty, Level::Suite, Level::Case),
            no_status(),
        ),
        _ => inside(
            control,
            either(empty, Level::Case, Level::Status),
            tallied(control.tally, k),
        ),
    }
}

// The control behind an element that is closed.
#[tactic(auto, using(crate::proofs::Turning::controls), unfolding(crate::specs::Control::turn))]
fn closed(control: Control) -> Control
    ensures { control_of result ≡ plan.turn (closing (level_of control.level)) (control_of control) }
{
    match control.level {
        Level::Top | Level::Suite => inside(control, Level::Top, no_status()),
        Level::Case => inside(control, Level::Suite, no_status()),
        Level::Status => inside(control, Level::Case, control.tally),
    }
}

fn going(control: Control, mode: Mode, output: Output) -> Control
    ensures { control_of result ≡ plan.control (mode_at mode (level_of control.level) (output_of output)) control.seen control.closed control.tally }
{
    Control {
        mode,
        output,
        ..control
    }
}

// The control in a properties list, or behind an Empty one.
#[tactic(auto, unfolding(crate::specs::Control::turn))]
fn listed(control: Control, empty: bool) -> Control
    ensures { control_of result ≡ plan.turn (plan.open_list (level_of control.level) empty) (control_of control) }
{
    let mode = if empty { Mode::At } else { Mode::List };
    going(control, mode, Output::Out)
}

// The control that follows. A property's content is skipped whole, and the list goes on behind it.
#[tactic(auto, using(crate::proofs::Turning::level_in, crate::proofs::Turning::property_turned, crate::proofs::Turning::closes), unfolding(crate::specs::Control::turn))]
pub fn turn(act: Act, control: Control) -> Control
    requires { Few 4294967294 control.tally }
    ensures { (name : List ℕ) → control_of result ≡ turned act name control }
{
    match act {
        Act::Open(k, empty) => opened(control, k, empty),
        Act::Close => closed(control),
        Act::OpenText(output) => going(control, Mode::Text, output),
        Act::CloseText(_) | Act::CloseList => going(control, Mode::At, Output::Out),
        Act::OpenList(empty) => listed(control, empty),
        Act::Pass | Act::Skip | Act::ReadProperty(_) | Act::Stop | Act::Missing | Act::Broken(_) =>
            control,
    }
}
