// Where it was refused, put behind what the output area holds: the path, and the event and attribute by their numbers.
#![tactic(auto)]

ghost use Rattle.std.specs.Prelude.{◌++◌};
ghost use Rattle.explain_element.specs.of_list_text.inside.Behind.{filled, Puts};
ghost use Rattle.explain_element.specs.of_explain_text.Explanation.{element_text, path_text, place_text};
ghost use Rattle.explain_place.specs.inside.Marks.{mark_at};

use explain_element::put_element;
use explain_element::the_area::least;
use explain_element::the_list_text::{is_open, put, put_decimal};
use explain_element::the_refusal::{NOWHERE, Path, PathElement};

// The element with i before it.
fn put_step(
    out: &mut [u8],
    k: Option<usize>,
    events: &[u32],
    attributes: &[u32],
    source: &[u8],
    i: usize,
    e: PathElement,
) -> Option<usize>
    ensures { Puts (filled k out.old) (mark_at i ++ element_text events.now attributes.now source.now e) (filled result out.new) }
{
    if i == 0 {
        let mark = put(out, k, b" at ");
        return put_element(out, mark, events, attributes, source, e);
    }
    let mark = put(out, k, b"/");
    put_element(out, mark, events, attributes, source, e)
}

// By rules E2 and E4.
pub fn put_path(
    out: &mut [u8],
    k: Option<usize>,
    events: &[u32],
    attributes: &[u32],
    source: &[u8],
    path: Path,
) -> Option<usize>
    ensures { Puts (filled k out.old) (path_text events.now attributes.now source.now path) (filled result out.new) }
{
    let elements = path.elements;
    let n = least(path.len, 6);
    let mut mark = k;
    for i in 0..n {
        if !is_open(mark) {
            return mark;
        }
        mark = put_step(out, mark, events, attributes, source, i, elements[i]);
    }
    mark
}

// Nothing where no event is concerned (rule E1).
pub fn put_place(out: &mut [u8], k: Option<usize>, event: u32, attribute: u32) -> Option<usize>
    ensures { Puts (filled k out.old) (place_text event attribute) (filled result out.new) }
{
    if event == NOWHERE {
        return k;
    }
    let opened = put(out, k, b" (event ");
    let number = put_decimal(out, opened, event as u64);
    if attribute == NOWHERE {
        return put(out, number, b")");
    }
    let parted = put(out, number, b", attribute ");
    let last = put_decimal(out, parted, attribute as u64);
    put(out, last, b")")
}
