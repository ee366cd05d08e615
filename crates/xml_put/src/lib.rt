// What a byte does to the two areas: the records that are due.
#![tactic(auto)]

ghost use Rattle.std.specs.Prelude.{◌≡◌, ◌≤◌};
ghost use Rattle.xml_acts.specs.of_xml_state.inside.Puts.{stepped, turned, fresh_of, settled_of, shut_mode, act_text, act_start, act_empty, act_end, act_ref, act_between, act_on};

pub use xml_acts as the_xml_acts;
use xml_acts::the_area::wide;
use xml_acts::the_tree_record::{field, put_field};
use xml_acts::the_xml_state::{Move, State, Step, mode};
pub use xml_acts::{the_area, the_refusal, the_xml_state};
use xml_acts::{acted, named};
pub use xml_write as the_xml_write;
pub use xml_write::the_xml_checks;
use xml_write::the_xml_checks::{has_room, less};
use xml_write::{act_value, put_over, put_sized, put_tag};

// In the mode, with a new run behind byte `at`.
fn fresh(st: State, mode: u8, at: u32) -> State
    requires { at ≤ 16777216 }
    ensures { result ≡ fresh_of st mode at }
{
    let mut s = st;
    s.mode = mode;
    s.mark = at + 1;
    s
}

// At home in the mode, with that element innermost, and a new run behind byte `at`.
fn settled(st: State, mode: u8, at: u32, top: u32) -> State
    requires { at ≤ 16777216 }
    ensures { result ≡ settled_of st mode at top }
{
    let mut s = st;
    s.mode = mode;
    s.home = mode;
    s.mark = at + 1;
    s.top = top;
    s
}

// Behind a closed element.
fn shut(top: u32) -> u8
    ensures { result ≡ shut_mode top }
{
    if top == 0 {
        mode::TEXT_AFTER
    } else {
        mode::TEXT_IN
    }
}

pub fn act_text(st: State, mode: u8, at: u32, events: &mut [u32]) -> Step
    requires { at ≤ 16777216 }
    ensures { stepped result events.new ≡ act_text st mode at events.old }
{
    if st.mark < at {
        return put_over(fresh(st, mode, at), 3, st.mark, at, events);
    }
    Step::Go(fresh(st, mode, at))
}

// An open element's kind word is its parent's record number + 1.
fn act_start(st: State, at: u32, events: &mut [u32]) -> Step
    requires { at ≤ 16777216 }
    ensures { stepped result events.new ≡ act_start st at events.old }
{
    if has_room(st.count, events.len()) {
        return put_tag(settled(st, mode::TEXT_IN, at, st.count + 1), st.top, events);
    }
    Step::Full
}

fn act_empty(st: State, at: u32, events: &mut [u32]) -> Step
    requires { at ≤ 16777216 }
    ensures { stepped result events.new ≡ act_empty st at events.old }
{
    put_tag(settled(st, shut(st.top), at, st.top), 1, events)
}

fn act_end(st: State, at: u32, events: &mut [u32]) -> Step
    requires { at ≤ 16777216 }
    ensures { stepped result events.new ≡ act_end st at events.old }
{
    let i = wide(less(st.top, 1)) * 5;
    let link = field(events, i);
    let mark = st.mark;
    put_field(events, i, 0);
    put_sized(settled(st, shut(link), at, link), mark, st.long, events)
}

// In a value a reference gives no event.
fn act_ref(st: State, at: u32, events: &mut [u32]) -> Step
    requires { at ≤ 16777216 }
    ensures { stepped result events.new ≡ act_ref st at events.old }
{
    let home = st.home;
    if (home == mode::VALUE_DOUBLE) | (home == mode::VALUE_SINGLE) {
        let mut s = st;
        s.mode = home;
        return Step::Go(s);
    }
    put_over(fresh(st, home, at), 5, st.mark, at, events)
}

// What stands between the marks, of which the closing one has that many bytes before `at`.
fn act_between(st: State, kind: u32, closing: u32, at: u32, events: &mut [u32]) -> Step
    requires { at ≤ 16777216 }
    ensures { stepped result events.new ≡ act_between st kind closing at events.old }
{
    put_over(
        fresh(st, st.home, at),
        kind,
        st.mark,
        less(at, closing),
        events,
    )
}

pub fn act_on(
    st: State,
    m: Move,
    b: u8,
    at: u32,
    source: &[u8],
    events: &mut [u32],
    attributes: &mut [u32],
) -> Step
    requires { at ≤ 16777216 }
    ensures { turned result events.new attributes.new ≡ act_on st m b at source.now events.old attributes.old }
{
    let mode = m.mode;
    let act = m.act;
    match act {
        b't' => act_text(st, mode, at, events),
        b'g' => act_start(named(st, mode, at), at, events),
        b's' => act_start(st, at, events),
        b'e' => act_empty(st, at, events),
        b'z' => act_end(st, at, events),
        b'r' => act_ref(st, at, events),
        b'o' => act_between(st, 6, 2, at, events),
        b'p' => act_between(st, 6, 1, at, events),
        b'd' => act_between(st, 4, 2, at, events),
        b'v' => act_value(st, mode, at, attributes),
        _ => acted(st, m, b, at, source, events),
    }
}
