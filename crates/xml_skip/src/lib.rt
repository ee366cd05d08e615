// Bytes that leave the tokenizer's mode and all else alone, passed at once.
#![tactic(auto)]

ghost use Rattle.std.specs.Prelude.{◌≡◌, ◌+◌, ◌≤◌, ◌<◌, length, get_or};
ghost use Rattle.xml_checks.specs.of_xml_state.inside.Tables.{class_table, next_table, act_table};
ghost use Rattle.xml_checks.specs.of_xml_state.inside.Rows.{move_of};
ghost use Rattle.xml_skip.specs.inside.Passes.{Passes, Keeps, loose, Wide, two_bytes_of, three_bytes, four_bytes_of};

use xml_agree::the_area::wide;
use xml_calm::calm_end;
use xml_checks::the_xml_state::{Move, State, mode};
use xml_checks::{byte_at, less};
pub use xml_moves as the_xml_moves;
use xml_moves::move_at;

// Modes in which any character beyond ASCII may stand, and leaves the mode as it is.
fn is_loose(mode: u8) -> bool
    ensures { result ≡ loose mode }
{
    (mode == mode::TEXT_IN)
        | ((mode == mode::VALUE_DOUBLE)
            | ((mode == mode::VALUE_SINGLE) | ((mode == b'@') | ((mode == b'=') | (mode == b'M')))))
}

fn is_two(a: u8, b: u8) -> bool
    ensures { result ≡ two_bytes_of a b }
{
    (0xC1 < a) & ((a < 0xE0) & ((0x7F < b) & (b < 0xC0)))
}

fn is_three(a: u8, b: u8, c: u8) -> bool
    ensures { result ≡ three_bytes a b c }
{
    ((0xDF < a) & ((a < 0xF0) & (((0x7F < b) & (b < 0xC0)) & ((0x7F < c) & (c < 0xC0)))))
        & (((0xE0 < a) | (0x9F < b))
            & (((a < 0xED) | ((0xED < a) | (b < 0xA0))) & ((a < 0xEF) | ((b < 0xBF) | (c < 0xBE)))))
}

fn is_four(a: u8, b: u8, c: u8, d: u8) -> bool
    ensures { result ≡ four_bytes_of a b c d }
{
    ((0xEF < a)
        & ((a < 0xF5)
            & (((0x7F < b) & (b < 0xC0))
                & (((0x7F < c) & (c < 0xC0)) & ((0x7F < d) & (d < 0xC0))))))
        & (((0xF0 < a) | (0x8F < b)) & ((a < 0xF4) | (b < 0x90)))
}

// How many bytes the character beyond ASCII has that stands whole at `at`; or 0.
fn width(source: &[u8], at: usize) -> usize
    requires { at < length source.now }
    ensures { (at + result ≤ length source.now) × Wide source.now at result }
{
    let n = source.len() - at;
    let a = source[at];
    if a < 0xE0 {
        if n < 2 {
            return 0;
        }
        if is_two(a, source[at + 1]) {
            return 2;
        }
        return 0;
    }
    if n < 3 {
        return 0;
    }
    let b = source[at + 1];
    let c = source[at + 2];
    if is_three(a, b, c) {
        return 3;
    }
    if n < 4 {
        return 0;
    }
    if is_four(a, b, c, source[at + 3]) {
        return 4;
    }
    0
}

// The same where the mode lets it be passed.
fn loose_width(source: &[u8], at: usize, mode: u8) -> usize
    requires { at < length source.now }
    ensures { (at + result ≤ length source.now) × Passes source.now mode at (at + result) }
{
    if is_loose(mode) {
        return width(source, at);
    }
    0
}

// The place behind the bytes from `from` on that leave the mode and all else alone.
fn skip(source: &[u8], from: usize, mode: u8, classes: &[u8], nexts: &[u8], acts: &[u8]) -> usize
    requires le_mode { (48 ≤ mode) × (mode < 122) }
    requires classes_value { (classes.now ≡ class_table) × (nexts.now ≡ next_table) × (acts.now ≡ act_table) }
    ensures { (from ≤ result) × Passes source.now mode from result }
{
    let mut at = calm_end(source, from, mode);
    // while: each step passes a whole character.
    while at < source.len() {
        let m = move_at(mode, source[at], classes, nexts, acts);
        if m.mode != mode {
            return at;
        }
        if m.act == b'.' {
            at += 1;
        } else {
            let w = loose_width(source, at, mode);
            if w == 0 {
                return at;
            }
            at += w;
        }
    }
    at
}

// The same where the byte at `from` makes the move m. Documents that change the mode at every byte don't pay for `skip`.
pub fn ahead(
    m: Move,
    source: &[u8],
    from: usize,
    mode: u8,
    classes: &[u8],
    nexts: &[u8],
    acts: &[u8],
) -> usize
    requires from_in_bounds { from < length source.now }
    requires m_value { m ≡ move_of mode (get_or source.now from 0) }
    requires le_mode { (48 ≤ mode) × (mode < 122) }
    requires classes_value { (classes.now ≡ class_table) × (nexts.now ≡ next_table) × (acts.now ≡ act_table) }
    ensures { (from ≤ result) × Passes source.now mode from result }
{
    if m.mode != mode {
        return from;
    }
    if m.act == b'.' {
        return skip(source, from + 1, mode, classes, nexts, acts);
    }
    let w = loose_width(source, from, mode);
    if w == 0 {
        return from;
    }
    skip(source, from + w, mode, classes, nexts, acts)
}

// The place behind the letters of an end tag's name from `from` on, but for its last: the registers stay as they are until then.
pub fn pass_name(source: &[u8], from: usize, st: State) -> usize
    requires { length source.now ≤ 16777216 }
    ensures { (from ≤ result) × Keeps source.now st from result }
{
    if st.mode != b'w' {
        return from;
    }
    for at in from..source.len() {
        let k = less(at as u32, st.mark);
        if wide(st.long) <= wide(k) + 1 {
            return at;
        }
        if source[at] != byte_at(source, wide(st.name) + wide(k)) {
            return at;
        }
    }
    from.max(source.len())
}
