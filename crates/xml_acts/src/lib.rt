// What a byte does to the registers alone: marks, a character's further bytes, fixed bytes, an end tag's name.
#![tactic(auto)]

ghost use Rattle.std.specs.Prelude.{◌≡◌, ◌+◌, ◌≤◌, ◌<◌};
ghost use Rattle.xml_part.specs.of_xml_chars.Chars as chars;
ghost use Rattle.xml_part.specs.of_xml_state.inside.Registers.{in_mode, at_mark_of, beginning};
ghost use Rattle.xml_part.specs.of_xml_state.inside.Acts.{further_of, next_letter, spelled_of, named_of, keyed_of, quoted_of, closing_of, led_of, word_of, spelling_of, opened_of, acted_of};

pub use tree_record as the_tree_record;
use tree_record::field;
use xml_part::the_area::wide;
use xml_part::the_xml_checks::{byte_at, into, less, wanted};
use xml_part::the_xml_state::class::Class;
use xml_part::the_xml_state::{Move, State, Step, mode};
pub use xml_part::{the_area, the_refusal, the_xml_state};
use xml_part::{follow, lead};

pub fn begin() -> State
    ensures { result ≡ beginning }
{
    State {
        mode: mode::BEGIN,
        home: mode::TEXT_BEFORE,
        then: 0,
        word: 0,
        mark: 0,
        name: 0,
        long: 0,
        key: 0,
        wide: 0,
        first: 0,
        kept: 0,
        top: 0,
        count: 0,
        part: lead(Class::Any, 0),
    }
}

fn short(b: u8) -> usize
    ensures { (result ≡ b) × (result < 256) }
{
    b as usize
}

fn marked(st: State, mode: u8, mark: u32) -> State
    ensures { result ≡ at_mark_of mark (in_mode mode st) }
{
    let mut s = st;
    s.mode = mode;
    s.mark = mark;
    s
}

// A further byte of a character.
fn further(st: State, b: u8) -> Step
    ensures { result ≡ further_of st b }
{
    match follow(st.part, b) {
        Some(p) => {
            let mut s = st;
            s.mode = if p.left == 0 { st.then } else { st.mode };
            s.part = p;
            Step::Go(s)
        }
        None => Step::Bad,
    }
}

fn lower(b: u8) -> u8
    ensures { result ≡ chars.lower b }
{
    if (64 < b) & (b < 91) { b + 32 } else { b }
}

// A letter of fixed bytes. Each is ended by a newline, or by a tab where something is marked behind it; the last is taken in
// any letter case.
fn spelled(st: State, b: u8, at: u32) -> Step
    requires { at ≤ 16777216 }
    ensures { result ≡ spelled_of st b at }
{
    let words = b"\nCDATA[\tersion\nncoding\ntandalone\n1.\nes\no\n\xBB\xBF\tutf-8\n";
    let word = short(st.word);
    let byte = if word < 44 { b } else { lower(b) };
    if byte != byte_at(words, word) {
        return Step::Bad;
    }
    match byte_at(words, word + 1) {
        b'\n' => Step::Go(into(st, st.then)),
        b'\t' => Step::Go(marked(st, st.then, at + 1)),
        _ => Step::Go(next_letter(st)),
    }
}

fn next_letter(st: State) -> State
    ensures { result ≡ next_letter st }
{
    let mut s = st;
    s.word = if st.word < 255 { st.word + 1 } else { 0 };
    s
}

// The tag's name ends before `at`.
pub fn named(st: State, mode: u8, at: u32) -> State
    ensures { result ≡ named_of st mode at }
{
    let mut s = st;
    s.mode = mode;
    s.name = st.mark;
    s.long = less(at, st.mark);
    s.first = st.kept;
    s
}

fn keyed(st: State, mode: u8, at: u32) -> State
    ensures { result ≡ keyed_of st mode at }
{
    let mut s = st;
    s.mode = mode;
    s.key = st.mark;
    s.wide = less(at, st.mark);
    s
}

// References in the value lead back to it.
fn quoted(st: State, mode: u8, at: u32) -> State
    requires { at ≤ 16777216 }
    ensures { result ≡ quoted_of st mode at }
{
    let mut s = st;
    s.mode = mode;
    s.home = mode;
    s.mark = at + 1;
    s
}

// The end tag of the innermost open element.
fn closing(st: State, mode: u8, at: u32, events: &[u32]) -> State
    requires { at ≤ 16777216 }
    ensures { result ≡ closing_of st mode at events.now }
{
    let i = wide(less(st.top, 1)) * 5;
    let mut s = st;
    s.mode = mode;
    s.mark = at + 1;
    s.name = field(events, i + 1);
    s.long = field(events, i + 2);
    s
}

fn led(st: State, then: u8, class: Class, b: u8) -> State
    ensures { result ≡ led_of st then class b }
{
    let mut s = st;
    s.mode = mode::WITHIN;
    s.then = then;
    s.part = lead(class, b);
    s
}

fn word_of(act: u8) -> u8
    ensures { result ≡ word_of act }
{
    match act {
        b'0' => 1,
        b'1' => 8,
        b'2' => 15,
        b'3' => 23,
        b'4' => 33,
        b'5' => 36,
        b'6' => 39,
        b'7' => 41,
        _ => 44,
    }
}

fn spelling(st: State, then: u8, act: u8) -> State
    ensures { result ≡ spelling_of st then act }
{
    let mut s = st;
    s.mode = mode::SPELLED;
    s.then = then;
    s.word = word_of(act);
    s
}

// The acts that begin a character of more than one byte, or fixed bytes.
fn opened(st: State, m: Move, b: u8, at: u32) -> State
    ensures { result ≡ opened_of st m b at }
{
    let mode = m.mode;
    let act = m.act;
    match act {
        b'C' => led(st, mode, Class::Any, b),
        b'S' => led(st, mode, Class::Start, b),
        b'H' => led(marked(st, mode, at), mode, Class::Start, b),
        b'N' => led(st, mode, Class::Name, b),
        _ => spelling(st, mode, act),
    }
}

// The acts that put no record.
pub fn acted(st: State, m: Move, b: u8, at: u32, source: &[u8], events: &[u32]) -> Step
    requires { at ≤ 16777216 }
    ensures { result ≡ acted_of st m b at source.now events.now }
{
    let mode = m.mode;
    let act = m.act;
    match act {
        b'-' => Step::Bad,
        b'x' => wanted(st, b, at, source),
        b'w' => further(st, b),
        b'l' => spelled(st, b, at),
        b'h' => Step::Go(marked(st, mode, at)),
        b'm' => Step::Go(marked(st, mode, at + 1)),
        b'n' => Step::Go(named(st, mode, at)),
        b'k' => Step::Go(keyed(st, mode, at)),
        b'q' => Step::Go(quoted(st, mode, at)),
        b'c' => Step::Go(closing(st, mode, at, events)),
        _ => Step::Go(opened(st, m, b, at)),
    }
}
