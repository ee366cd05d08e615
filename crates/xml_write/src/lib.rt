// Records put into the two areas.
#![tactic(auto)]

ghost use Rattle.std.specs.Prelude.{◌≡◌, ◌+◌, ◌<◌};
ghost use Rattle.xml_checks.specs.of_xml_stack.Stack.{put_at};
ghost use Rattle.xml_checks.specs.of_xml_state.inside.Registers.{with_count};
ghost use Rattle.xml_checks.specs.of_xml_state.inside.Puts.{stepped, putting, put_over, put_tag, act_value};

use tree_record::put_field;
pub use xml_checks as the_xml_checks;
use xml_checks::the_area::wide;
use xml_checks::the_xml_state::{State, Step};
use xml_checks::{has_room, less, unless0};

fn put_record(area: &mut [u32], n: u32, a: u32, b: u32, c: u32, d: u32, e: u32)
    ensures { area.new ≡ put_at area.old n a b c d e }
{
    let at = wide(n) * 5;
    put_field(area, at + 1, b);
    put_field(area, at + 2, c);
    put_field(area, at + 3, d);
    put_field(area, at + 4, e);
    put_field(area, at, a);
}

fn counted(st: State) -> State
    requires { st.count < 65536 }
    ensures { result ≡ with_count (st.count + 1) st }
{
    let mut s = st;
    s.count = st.count + 1;
    s
}

// An event over the bytes from `from` up to `to`; st is the state behind it.
pub fn put_over(st: State, kind: u32, from: u32, to: u32, events: &mut [u32]) -> Step
    ensures { stepped result events.new ≡ put_over st kind from to events.old }
{
    let n = st.count;
    let size = less(to, from);
    if has_room(n, events.len()) {
        put_record(events, n, kind, unless0(from, size), size, 0, 0);
        return Step::Go(counted(st));
    }
    Step::Full
}

// A tag with its attributes; st is the state behind it.
pub fn put_tag(st: State, kind: u32, events: &mut [u32]) -> Step
    ensures { stepped result events.new ≡ put_tag st kind events.old }
{
    let n = st.count;
    let size = less(st.kept, st.first);
    if has_room(n, events.len()) {
        put_record(
            events,
            n,
            kind,
            st.name,
            st.long,
            unless0(st.first, size),
            size,
        );
        return Step::Go(counted(st));
    }
    Step::Full
}

// An End; st is the state behind it.
pub fn put_sized(st: State, from: u32, size: u32, events: &mut [u32]) -> Step
    ensures { stepped result events.new ≡ putting st 2 from size 0 0 events.old }
{
    let n = st.count;
    if has_room(n, events.len()) {
        put_record(events, n, 2, from, size, 0, 0);
        return Step::Go(counted(st));
    }
    Step::Full
}

pub fn act_value(st: State, mode: u8, at: u32, attributes: &mut [u32]) -> Step
    ensures { stepped result attributes.new ≡ act_value st mode at attributes.old }
{
    let n = st.kept;
    let size = less(at, st.mark);
    if has_room(n, attributes.len()) {
        put_record(
            attributes,
            n,
            0,
            st.key,
            st.wide,
            unless0(st.mark, size),
            size,
        );
        let mut s = st;
        s.mode = mode;
        s.kept = n + 1;
        return Step::Go(s);
    }
    Step::Full
}
