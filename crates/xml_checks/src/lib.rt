// What is checked at a byte: a legal character, the name of an end tag, room for a record; and what a record has for nothing.
#![tactic(auto)]

ghost use Rattle.std.specs.Prelude.{◌≡◌, ◌-◌, get_or};
ghost use Rattle.xml_state.specs.of_xml_chars.Chars.{crosses, meets, any_char};
ghost use Rattle.xml_state.specs.of_xml_machine.Tokens as tokens;
ghost use Rattle.xml_state.specs.inside.Registers.{in_mode};
ghost use Rattle.xml_state.specs.inside.Acts.{wanted_of};
ghost use Rattle.xml_state.specs.inside.Puts.{room_for};

pub use xml_state as the_xml_state;
use xml_state::the_area::{limit, wide};
pub use xml_state::{the_area, the_refusal};
use xml_state::{State, Step, mode};

pub fn crosses(a: u64, z: u64, low: u64, high: u64) -> bool
    ensures { result ≡ crosses a z low high }
{
    (a <= z) & (low <= high) & (a <= high) & (low <= z)
}

pub fn meets_any(low: u64, high: u64) -> bool
    ensures { result ≡ meets any_char low high }
{
    crosses(0x9, 0xA, low, high)
        | (crosses(0xD, 0xD, low, high)
            | (crosses(0x20, 0xD7FF, low, high)
                | (crosses(0xE000, 0xFFFD, low, high) | crosses(0x10000, 0x10FFFF, low, high))))
}

// Whether an area of that many words has room for record n.
pub fn has_room(n: u32, words: usize) -> bool
    ensures { result ≡ room_for n words }
{
    (wide(n) < limit::ENTRIES) & (wide(n) < words / 5)
}

// A start without length, or a first attribute without count, is 0 (rule N4).
pub fn unless0(start: u32, size: u32) -> u32
    ensures { result ≡ tokens.unless0 start size }
{
    if size == 0 { 0 } else { start }
}

pub fn less(a: u32, b: u32) -> u32
    ensures { result ≡ a - b }
{
    a.saturating_sub(b)
}

pub fn byte_at(s: &[u8], i: usize) -> u8
    ensures { result ≡ get_or s.now i 0 }
{
    s.get(i).copied().unwrap_or(0)
}

pub fn into(st: State, mode: u8) -> State
    ensures { result ≡ in_mode mode st }
{
    State { mode, ..st }
}

// A byte of an end tag's name.
pub fn wanted(st: State, b: u8, at: u32, source: &[u8]) -> Step
    ensures { result ≡ wanted_of st b at source.now }
{
    let k = less(at, st.mark);
    if b != byte_at(source, wide(st.name) + wide(k)) {
        return Step::Bad;
    }
    if wide(k) + 1 < wide(st.long) {
        return Step::Go(st);
    }
    Step::Go(into(st, mode::END_TAG))
}
