// What is answered at a refused byte and behind the last one.
#![tactic(auto)]

ghost use Rattle.std.specs.Prelude.{◌≡◌, ◌≤◌, drop};
ghost use Rattle.xml_put.specs.of_names.Bytes.{bytes};
ghost use Rattle.xml_put.specs.of_xml_chars.Chars.{begins};
ghost use Rattle.xml_put.specs.of_xml_state.inside.Turns.{run_mode, broken_of, refused_of, ended, eof_of, finish_of};

pub use xml_put as the_xml_put;
use xml_put::act_text;
use xml_put::the_area::wide;
use xml_put::the_refusal::NOWHERE;
use xml_put::the_xml_checks::{has_room, less};
use xml_put::the_xml_state::{State, Step, Tokenized, mode};
use xml_put::the_xml_write::put_over;
pub use xml_put::{the_area, the_refusal, the_xml_acts, the_xml_state};

// Whether `DOCTYPE` stands at `at`.
fn is_doctype(source: &[u8], at: usize) -> bool
    requires { at ≤ 16777216 }
    ensures { result ≡ begins (bytes "DOCTYPE") (drop at source.now) }
{
    if source.len() < at {
        return false;
    }
    source[at..].starts_with(b"DOCTYPE")
}

// The mode of the run that a character of which some bytes stand belongs to.
fn mode_of(st: State) -> u8
    ensures { result ≡ run_mode st }
{
    if st.mode == mode::WITHIN {
        st.then
    } else {
        st.mode
    }
}

// A refused byte, or the end: the open run of text is due first.
fn broken(st: State, at: u32, words: usize) -> Tokenized
    ensures { result ≡ broken_of st at words }
{
    if (mode_of(st) <= mode::LAST_TEXT) & (st.mark < at) {
        if !has_room(st.count, words) {
            return Tokenized::Refused(16, NOWHERE);
        }
    }
    Tokenized::Refused(18, at)
}

// A byte that no document has here, or DOCTYPE, which is refused at its `<`.
pub fn refused(st: State, at: u32, source: &[u8], words: usize) -> Tokenized
    requires { at ≤ 16777216 }
    ensures { result ≡ refused_of st at source.now words }
{
    if (st.mode == mode::BANG_OUT) | (st.mode == mode::BANG_IN) {
        if is_doctype(source, wide(at)) {
            return Tokenized::Refused(19, less(at, 2));
        }
    }
    broken(st, at, words)
}

fn put_eof(st: State, events: &mut [u32]) -> Tokenized
    ensures { ended result events.new ≡ eof_of st events.old }
{
    match put_over(st, 7, 0, 0, events) {
        Step::Go(s) => Tokenized::Table(s.count, s.kept),
        Step::Full => Tokenized::Refused(16, NOWHERE),
        Step::Bad => Tokenized::Refused(16, NOWHERE),
    }
}

// Behind the last byte: the run, then Eof.
pub fn finish(st: State, at: u32, events: &mut [u32]) -> Tokenized
    requires { at ≤ 16777216 }
    ensures { ended result events.new ≡ finish_of st at events.old }
{
    if st.mode == mode::TEXT_AFTER {
        return match act_text(st, st.mode, at, events) {
            Step::Go(s) => put_eof(s, events),
            Step::Full => Tokenized::Refused(16, NOWHERE),
            Step::Bad => Tokenized::Refused(16, NOWHERE),
        };
    }
    broken(st, at, events.len())
}
