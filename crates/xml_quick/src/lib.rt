// The acts that only mark a name, a key or a value: the registers behind them, without a way out.
#![tactic(auto)]

ghost use Rattle.std.specs.Prelude.{◌≡◌, ◌≤◌};
ghost use Rattle.xml_quick.specs.inside.Quick.{quick_act, quick_of};

use xml_checks::less;
use xml_checks::the_xml_state::{Move, State};

pub fn is_quick(act: u8) -> bool
    ensures { result ≡ quick_act act }
{
    (act == b'h') | ((act == b'k') | ((act == b'q') | (act == b'n')))
}

pub fn quick(st: State, m: Move, at: u32) -> State
    requires { at ≤ 16777216 }
    ensures { result ≡ quick_of st m at }
{
    let mode = m.mode;
    let act = m.act;
    let mut s = st;
    s.mode = mode;
    if act == b'h' {
        s.mark = at;
        return s;
    }
    if act == b'q' {
        s.home = mode;
        s.mark = at + 1;
        return s;
    }
    let size = less(at, st.mark);
    if act == b'k' {
        s.key = st.mark;
        s.wide = size;
        return s;
    }
    s.name = st.mark;
    s.long = size;
    s.first = st.kept;
    s
}
