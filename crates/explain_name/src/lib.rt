// The name of a suite or case in brackets, from the attributes of its Start.
#![tactic(auto)]

ghost use Rattle.std.specs.Prelude.{◌≡◌, ◌-◌, get_or};
ghost use Rattle.table_events.specs.of_names.Bytes.{bytes};
ghost use Rattle.table_events.specs.of_names.Names.{same_bytes};
ghost use Rattle.explain_text.specs.of_escape.Escape.{escaped};
ghost use Rattle.explain_text.specs.of_text.Decode.{is_value};
ghost use Rattle.explain_text.specs.of_text.Value.{value_text};
ghost use Rattle.table_events.specs.of_table.Event.{part};
ghost use Rattle.explain_text.specs.of_list_text.inside.Behind.{filled, Puts};
ghost use Rattle.explain_text.specs.Explanation.{text_of, name_at, bracketed};
ghost use Rattle.explain_name.specs.inside.Found.{named_from};

pub use explain_lines as the_explain_lines;
use explain_lines::value_at;
pub use explain_text::the_list_text;
use explain_text::the_list_text::{is_open, put, put_escaped};
use explain_text::the_reference::refs_ok;
use explain_text::the_text::decode::piece_of;
use explain_text::the_utf8::is_utf8;
use table_events::the_area::wide;
use table_events::the_names::same;
use table_events::the_refusal::NOWHERE;
use table_events::the_table::kind;
use table_events::the_table_parts::{bytes_of, word_of};
pub use table_events::{the_area, the_names, the_refusal};
use table_events::{end_at, first_at, kind_at};

fn is_value(s: &[u8]) -> bool
    ensures { result ≡ is_value s.now }
{
    is_utf8(s) & refs_ok(s)
}

// Puts the text that s stands for, piece by piece: there is no other memory.
fn put_value(out: &mut [u8], k: Option<usize>, s: &[u8]) -> Option<usize>
    ensures { Puts (filled k out.old) (escaped (value_text s.now)) (filled result out.new) }
{
    let mut i = 0;
    let mut mark = k;
    // while: each turn passes a whole piece.
    while is_open(mark) & (i < s.len()) {
        let p = piece_of(&s[i..], true);
        let bytes = p.bytes;
        let n = p.n;
        mark = put_escaped(out, mark, &bytes[..n]);
        i += p.width;
    }
    mark
}

fn put_bracketed(out: &mut [u8], k: Option<usize>, s: &[u8]) -> Option<usize>
    ensures { Puts (filled k out.old) (bracketed (text_of s.now)) (filled result out.new) }
{
    if !is_value(s) {
        return k;
    }
    let opened = put(out, k, b"(\"");
    let shown = put_value(out, opened, s);
    put(out, shown, b"\")")
}

// Whether the attribute that `words` begins with has the key `name`.
fn is_name(words: &[u32], source: &[u8]) -> bool
    ensures { result ≡ same_bytes (part source.now (get_or words.now 1 0) (get_or words.now 2 0)) (bytes "name") }
{
    same(
        bytes_of(source, wide(word_of(words, 1)), wide(word_of(words, 2))),
        b"name",
    )
}

// The first attribute from number `first` to before number `end` with that key, or `end`. Behind the table there are no keys.
fn named_from(attributes: &[u32], source: &[u8], first: usize, end: usize) -> usize
    ensures { result ≡ named_from attributes.now source.now (end - first) first }
{
    let n = attributes.len() / 5;
    let mut j = first;
    // while: where `end` comes before `first`, the answer is `first`.
    while j < end {
        if n < j {
            return end;
        }
        let at = j * 5;
        if is_name(&attributes[at..], source) {
            return j;
        }
        j += 1;
    }
    j
}

// Puts the name of an event, if the table has it and it has one (rule E3).
pub fn put_name(
    out: &mut [u8],
    k: Option<usize>,
    events: &[u32],
    attributes: &[u32],
    source: &[u8],
    event: u32,
) -> Option<usize>
    ensures { Puts (filled k out.old) (bracketed (name_at events.now attributes.now source.now event)) (filled result out.new) }
{
    let i = wide(event);
    if (event == NOWHERE) | (kind::EMPTY < kind_at(events, i)) {
        return k;
    }
    let end = end_at(events, i);
    let j = named_from(attributes, source, first_at(events, i), end);
    if j < end {
        return put_bracketed(out, k, value_at(attributes, source, j));
    }
    k
}
