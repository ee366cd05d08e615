// One step of reading: an event, with what is skipped behind it.
#![tactic(auto)]

ghost use Rattle.std.specs.Prelude.{◌≡◌, true, false, List, ℕ, ◌≤◌, ◌<◌, length};
ghost use Rattle.read_actions.specs.of_refusal.Refusal as why;
ghost use Rattle.read_actions.specs.of_table.Table.{count_of, table_of};
ghost use Rattle.read_actions.specs.of_read_state.inside.Coded.{mode_of, control_of, act_of, is_step};
ghost use Rattle.read_actions.specs.of_tree_status.Status.{Few};
ghost use Rattle.read_actions.specs.of_read_place.inside.Coded.{marks_of, Low};
ghost use Rattle.read_actions.specs.of_read_state.declared.Act.TheVariants.{Close};
ghost use Rattle.read_actions.specs.of_read_content.Content as deed;
ghost use Rattle.read_actions.specs.of_read_element.inside.Refines.{tagged, areas};
ghost use Rattle.read_actions.specs.of_read_content.inside.Holds.{apt};
ghost use Rattle.read_step.specs.inside.Planned.{planned, name_in, is_skip, is_stop, is_close, has_content, plain_of};
ghost use Rattle.read_step.specs.inside.Standing.{machine_of, Standing, Bounded, Lent, Spans, halt_at, beginning, after};
ghost use Rattle.read_step.specs.inside.Promises.{given, lent, StandingAgain, StandingSince, StepsPiece, StepsSkip, StepsAct, Settles, StepsReady, PassesContent, StepsEvent};
ghost use Rattle.read_again.specs.inside.Turns.{Known};
ghost use Rattle.read_again.specs.of_table_events.inside.Ranges.{first_at, end_at};

use read_actions::perform;
use read_actions::the_names::tag_of;
use read_actions::the_read_attribute::Range;
use read_actions::the_read_content::{Content, no_content};
use read_actions::the_read_fault::Fault;
use read_actions::the_read_place::{Marks, marked, no_marks, onward};
use read_actions::the_read_rules::{plan_eof, plan_tag};
use read_actions::the_read_state::{Act, Control, Level, Mode, Output, turn};
use read_actions::the_refusal::{Cause, NOWHERE};
use read_actions::the_table::kind;
use read_actions::the_tree_status::no_status;
pub use read_actions::{the_read_fault, the_table};
use read_again::restored;
use read_again::the_read_pieces::{gather, is_gathering};
use read_again::the_read_scratch::is_lost;
use read_again::the_table_events::{bytes_at, end_at, first_at, is_piece, kind_at, skip_from};
pub use read_again::{the_read_path, the_read_scratch};

#[derive(Clone, Copy)]
pub struct State {
    pub control: Control,
    pub marks: Marks,
    pub content: Content,
}

// What is refused: the action, the event, and why.
#[derive(Clone, Copy)]
pub struct Halt {
    pub act: Act,
    pub event: usize,
    pub fault: Fault,
}

pub fn begin() -> State
    ensures { result ≡ beginning }
{
    State {
        control: Control {
            mode: Mode::At,
            level: Level::Top,
            output: Output::Out,
            seen: false,
            closed: false,
            tally: no_status(),
        },
        marks: no_marks(0),
        content: no_content(),
    }
}

#[tactic(auto, using(crate::proofs::Others::other_skip))]
fn is_skip(act: Act) -> bool
    ensures { result ≡ is_skip act }
{
    matches!(act, Act::Skip)
}

// At End `testsuites` (rule R6), or at Eof behind a closed report.
#[tactic(auto, using(crate::proofs::Others::other_stop))]
fn is_stop(act: Act) -> bool
    ensures { result ≡ is_stop act }
{
    matches!(act, Act::Stop)
}

// A Start `property`: its content is skipped.
#[tactic(auto, using(crate::proofs::Others::other_content))]
fn has_content(act: Act) -> bool
    ensures { result ≡ has_content act }
{
    match act {
        Act::ReadProperty(empty) => !empty,
        _ => false,
    }
}

// The action at an event that is no piece of text, by its kind (rule T3); a Fault is refused (rule R19).
fn plan(control: Control, kind: u32, name: &[u8]) -> Act
    ensures result_value { act_of control (name_in kind name.now) result ≡ planned (control_of control) kind name.now }
    ensures control_value { apt result (mode_of control) ≡ true }
{
    match kind {
        kind::EOF => plan_eof(control),
        kind::FAULT => Act::Broken(Cause::XmlFault),
        _ => plan_tag(control, kind, tag_of(name)),
    }
}

// A refusal where reading stands, at this event and no attribute (rule F6).
fn halt_at(event: usize, cause: Cause) -> Result<Option<State>, Halt>
    ensures { result ≡ halt_at event cause }
{
    Err(Halt {
        act: Act::Broken(cause),
        event,
        fault: Fault {
            cause,
            key: 0,
            attribute: NOWHERE,
        },
    })
}

// A piece of text, which is read where text is gathered (rule R20).
fn step_piece(st: State, kind: u32, bytes: &[u8], scratch: &mut [u8]) -> Result<Option<State>, Halt>
    requires { Bounded st (length scratch.old) }
    ensures { StepsPiece st kind bytes.now scratch.old scratch.new result }
{
    let i = st.marks.event;
    let marks = onward(st.marks, i + 1);
    if !is_gathering(st.control) {
        return Ok(Some(State { marks, ..st }));
    }
    let gathered = gather(st.control.mode, kind, bytes, st.content, scratch);
    match gathered {
        Ok(content) => Ok(Some(State {
            marks,
            content,
            ..st
        })),
        Err(fault) => Err(Halt {
            act: Act::Broken(fault.cause),
            event: i,
            fault,
        }),
    }
}

// The element that event `start` begins, passed over (rule R11).
fn step_skip(st: State, start: usize, events: &[u32], source: &[u8]) -> Result<Option<State>, Halt>
    requires start_bound { start < count_of events.now }
    requires events_bound { count_of events.now ≤ 65536 }
    ensures { StepsSkip st start events.now source.now result }
{
    let skipped = skip_from(events, source, start);
    match skipped {
        Ok(i) => Ok(Some(State {
            marks: onward(st.marks, i),
            ..st
        })),
        Err((cause, at)) => halt_at(at, cause),
    }
}

// The state behind an action that left `content`.
fn behind(act: Act, st: State, content: Content) -> State
    requires low { Low 65536 (marks_of st.marks) }
    requires few { Few 4294967294 st.control.tally }
    requires act_value { is_step act ≡ true }
    ensures by_index { (name : List ℕ) (c : deed.Content) → machine_of result c ≡ after (act_of st.control name act) st.content.used (machine_of st c) }
    ensures content_value { result.content ≡ content }
{
    let marks = marked(act, st.control, st.content.used, st.marks);
    State {
        control: turn(act, st.control),
        marks: onward(marks, st.marks.event + 1),
        content,
    }
}

// An action other than skipping and stopping.
fn step_act(
    act: Act,
    st: State,
    range: Range,
    attributes: &[u32],
    source: &[u8],
    records: &mut [u32],
    text: &mut [u8],
    scratch: &[u8],
) -> Result<Option<State>, Halt>
    requires control_value { apt act (mode_of st.control) ≡ true }
    requires act_value { is_step act ≡ true }
    requires spans { Spans (length attributes.now) range.first range.end }
    requires lent { Lent (length records.old) (length text.old) (length scratch.now) }
    requires standing { Standing attributes.now source.now records.old text.old scratch.now st }
    ensures { StepsAct act st range (tagged attributes.now source.now)
        (areas records.old text.old) (areas records.new text.new) scratch.now result }
{
    let event = st.marks.event;
    let performed = perform(
        act, range, st.control, st.marks, st.content, attributes, source, records, text, scratch,
    );
    match performed {
        Ok(next) => Ok(Some(behind(act, st, next))),
        Err(fault) => Err(Halt { act, event, fault }),
    }
}

#[tactic(auto, using(crate::proofs::Others::other_close))]
fn is_close(act: Act) -> bool
    ensures { result ≡ is_close act }
{
    matches!(act, Act::Close)
}

// The content with its description in scratch, where an act closes the element: a child's text may have been put over it.
fn settled(
    act: Act,
    content: Content,
    first: usize,
    events: &[u32],
    source: &[u8],
    scratch: &mut [u8],
) -> Content
    requires known { Known events.now }
    requires first_bound { first ≤ count_of events.now }
    ensures child_value { act ≡ Close → result.child ≡ result.description }
    ensures settles { Settles act first events.now source.now content scratch.old scratch.new result }
{
    if is_close(act) & is_lost(content) {
        return restored(content, events, source, first, scratch);
    }
    content
}

// An action, with the description in scratch where it is to be stored.
fn step_ready(
    act: Act,
    st: State,
    first: usize,
    range: Range,
    events: &[u32],
    attributes: &[u32],
    source: &[u8],
    records: &mut [u32],
    text: &mut [u8],
    scratch: &mut [u8],
) -> Result<Option<State>, Halt>
    requires control_value { apt act (mode_of st.control) ≡ true }
    requires act_value { is_step act ≡ true }
    requires known { Known events.now }
    requires first_bound { first ≤ count_of events.now }
    requires spans { Spans (length attributes.now) range.first range.end }
    requires lent { Lent (length records.old) (length text.old) (length scratch.old) }
    requires standing_again { StandingAgain act (given events.now attributes.now source.now) (lent records.old text.old scratch.old) first st }
    ensures { StepsReady act st first range (given events.now attributes.now source.now)
        (lent records.old text.old scratch.old) (lent records.new text.new scratch.new) result }
{
    let content = settled(act, st.content, first, events, source, scratch);
    let ready = State { content, ..st };
    step_act(
        act, ready, range, attributes, source, records, text, scratch,
    )
}

// A Start `property` is read as an Empty one (rule R16).
fn plain(act: Act) -> Act
    ensures { result ≡ plain_of act }
{
    if has_content(act) {
        return Act::ReadProperty(true);
    }
    act
}

// Behind a Start `property` that was read so: its content is skipped.
fn pass_content(
    read: Result<Option<State>, Halt>,
    start: usize,
    events: &[u32],
    source: &[u8],
) -> Result<Option<State>, Halt>
    requires start_bound { start < count_of events.now }
    requires events_bound { count_of events.now ≤ 65536 }
    ensures { PassesContent read start events.now source.now result }
{
    match read? {
        Some(next) => step_skip(next, start, events, source),
        None => Ok(None),
    }
}

// The attributes of an event.
fn range_at(events: &[u32], i: usize) -> Range
    ensures first_value { result.first ≡ first_at events.now i }
    ensures end_value { result.end ≡ end_at events.now i }
{
    Range {
        first: first_at(events, i),
        end: end_at(events, i),
    }
}

// One event, with what is skipped behind it: the state behind it, none at the end; `first` is the event of the open description's first piece.
pub fn step_event(
    st: State,
    first: usize,
    events: &[u32],
    attributes: &[u32],
    source: &[u8],
    records: &mut [u32],
    text: &mut [u8],
    scratch: &mut [u8],
) -> Result<Option<State>, Halt>
    requires source_value { table_of events.now attributes.now source.now ≡ why.accepted tt }
    requires event_bound { st.marks.event ≤ count_of events.now }
    requires first_bound { first ≤ count_of events.now }
    requires lent { Lent (length records.old) (length text.old) (length scratch.old) }
    requires standing_since { StandingSince (given events.now attributes.now source.now) (lent records.old text.old scratch.old) first st }
    ensures { StepsEvent st first (given events.now attributes.now source.now)
        (lent records.old text.old scratch.old) (lent records.new text.new scratch.new) result }
{
    let i = st.marks.event;
    let kind = kind_at(events, i);
    let bytes = bytes_at(events, source, i);
    if is_piece(kind) {
        return step_piece(st, kind, bytes, scratch);
    }
    let act = plan(st.control, kind, bytes);
    if is_skip(act) {
        return step_skip(st, i, events, source);
    }
    if is_stop(act) {
        return Ok(None);
    }
    let range = range_at(events, i);
    let read = step_ready(
        plain(act),
        st,
        first,
        range,
        events,
        attributes,
        source,
        records,
        text,
        scratch,
    );
    if has_content(act) {
        return pass_content(read, i, events, source);
    }
    read
}
