// The program's input: three numbers, then the events, the attributes and the source of a table.
#![tactic(auto)]

ghost use Rattle.std.specs.Prelude.{◌≡◌, ◌&&◌, ◌≤◌, ◌<◌, ◌+◌, ◌*◌, leb, length, get_or, take, drop};
ghost use Rattle.area.specs.Area.{laid};
ghost use Rattle.list_input.specs.Input.{word_of, words_of, events_in, attributes_in, source_in, input_of, parts_in, events_left, attributes_left};

pub use area as the_area;

const BUFFER: usize = 65536;

// How many words of the areas are used, and where the source begins and how long it is.
#[derive(Clone, Copy)]
pub struct Parts {
    pub events: usize,
    pub attributes: usize,
    pub at: usize,
    pub source: usize,
}

// The three numbers.
#[derive(Clone, Copy)]
struct Numbers {
    events: usize,
    attributes: usize,
    source: usize,
}

// The first n bytes of s, all of them where there are fewer.
pub fn front(s: &[u8], n: usize) -> &[u8]
    ensures { result.now ≡ take n s.now }
{
    if n < s.len() {
        return &s[..n];
    }
    s
}

fn byte_at(s: &[u8], i: usize) -> u8
    ensures { result ≡ get_or s.now i 0 }
{
    s.get(i).copied().unwrap_or(0)
}

// The little-endian word that s begins with (rule P1).
fn word_of(s: &[u8]) -> u32
    ensures { result ≡ word_of s.now }
{
    let a = byte_at(s, 0);
    let b = byte_at(s, 1);
    let c = byte_at(s, 2);
    let d = byte_at(s, 3);
    (a as u32) + (b as u32) * 256 + (c as u32) * 65536 + (d as u32) * 16777216
}

fn wide(x: u32) -> usize
    ensures { (result ≡ x) × (result < 4294967296) }
{
    x as usize
}

fn numbers_of(s: &[u8]) -> Numbers
    requires { 12 ≤ length s.now }
    ensures events_value { (result.events ≡ events_in s.now) × (result.events < 4294967296) }
    ensures attributes_value { (result.attributes ≡ attributes_in s.now) × (result.attributes < 4294967296) }
    ensures source_value { (result.source ≡ source_in s.now) × (result.source < 4294967296) }
{
    Numbers {
        events: wide(word_of(s)),
        attributes: wide(word_of(&s[4..])),
        source: wide(word_of(&s[8..])),
    }
}

// Puts the first words of s into the area.
fn fill_words(words: &mut [u32], s: &[u8])
    requires { length words.old * 4 ≤ length s.now }
    ensures { words.new ≡ words_of (length words.old) s.now }
{
    for i in 0..words.len() {
        let at = i * 4;
        words[i] = word_of(&s[at..]);
    }
}

// Puts n words of s, from its place `at` on, at the front of the area.
fn fill_front(area: &mut [u32], n: usize, s: &[u8], at: usize)
    requires n_in_bounds { n ≤ length area.old }
    requires n_in_bounds_2 { at + n * 4 ≤ length s.now }
    ensures { area.new ≡ laid area.old (words_of n (drop at s.now)) }
{
    fill_words(&mut area[..n], &s[at..]);
}

// Whether the numbers are those of an input of that length, with areas of m and k words (rule P2).
fn is_whole(n: Numbers, m: usize, k: usize, size: usize) -> bool
    requires { (n.events < 4294967296) × (n.attributes < 4294967296) × (n.source < 4294967296) }
    ensures { result ≡ (leb (n.events * 5) m && (leb (n.attributes * 5) k && (leb n.source 65536 && leb (12 + n.events * 20 + n.attributes * 20 + n.source) size))) }
{
    (n.events * 5 <= m)
        & ((n.attributes * 5 <= k)
            & ((n.source <= BUFFER) & (12 + n.events * 20 + n.attributes * 20 + n.source <= size)))
}

// Puts the words of the table that s begins with at the front of the two areas (rule P1). An input that is cut off or too large
// (rule P2) is no table, and leaves the areas as they are.
pub fn input_of(s: &[u8], events: &mut [u32], attributes: &mut [u32]) -> Option<Parts>
    ensures value { result ≡ parts_in (length events.old) (length attributes.old) s.now }
    ensures events_after { events.new ≡ events_left (input_of (length events.old) (length attributes.old) s.now) events.old }
    ensures attributes_after { attributes.new ≡ attributes_left (input_of (length events.old) (length attributes.old) s.now) attributes.old }
{
    if s.len() < 12 {
        return None;
    }
    let n = numbers_of(s);
    if !is_whole(n, events.len(), attributes.len(), s.len()) {
        return None;
    }
    let here = n.events * 5;
    let there = n.attributes * 5;
    let middle = 12 + n.events * 20;
    let at = middle + n.attributes * 20;
    fill_front(events, here, s, 12);
    fill_front(attributes, there, s, middle);
    Some(Parts {
        events: here,
        attributes: there,
        at,
        source: n.source,
    })
}
