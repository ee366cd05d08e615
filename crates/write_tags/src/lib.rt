// What stands around an entry's bytes: nothing in a table; in the XML form the end of the tag before, a new line with its indent, and
// marks (rules W17 and W18).
#![tactic(auto)]

ghost use Rattle.std.specs.Prelude.{◌≡◌, ◌++◌, cond, ◌-◌, ◌*◌, ◌<◌, eqb, replicate};
ghost use Rattle.list_values.specs.of_list_text.inside.Behind.{filled, Puts};
ghost use Rattle.write_form.specs.of_write_spelled.Spelled.{newline};
ghost use Rattle.write_form.specs.of_write_table.inside.Forms as forms;

pub use list_values as the_list_values;
use list_values::part_of;
use list_values::the_list_text::put;
pub use write_form as the_write_form;
use write_form::the_table::kind;
use write_form::{form, is_text, left_out, one_less};

fn put_closing(bytes: &mut [u8], k: Option<usize>, form: u32) -> Option<usize>
    ensures { Puts (filled k bytes.old) (forms.closing form) (filled result bytes.new) }
{
    put(bytes, k, part_of(b"/>", left_out(form), 2))
}

// Four spaces a level, one by one.
fn put_levels(bytes: &mut [u8], k: Option<usize>, levels: usize) -> Option<usize>
    ensures { Puts (filled k bytes.old) (replicate (levels * 4) 32) (filled result bytes.new) }
{
    let mut mark = k;
    for _ in 0..levels {
        mark = put(bytes, mark, b"    ");
    }
    mark
}

// The end of the tag before and a new line, with up to eight levels at once.
fn put_break(bytes: &mut [u8], k: Option<usize>, form: u32, level: u32) -> Option<usize>
    ensures { Puts (filled k bytes.old) (forms.closing form ++ newline level) (filled result bytes.new) }
{
    let near = (level as usize).min(8);
    let from = left_out(form);
    let len = 3 - from + near as u32 * 4;
    let led = put(
        bytes,
        k,
        part_of(b"/>\n                                ", from, len),
    );
    put_levels(bytes, led, level as usize - near)
}

fn put_lead(bytes: &mut [u8], k: Option<usize>, form: u32, level: u32) -> Option<usize>
    ensures { Puts (filled k bytes.old) (forms.lead form level) (filled result bytes.new) }
{
    if form == form::FREE {
        return k;
    }
    put_break(bytes, k, form, level)
}

fn put_before_xml(
    bytes: &mut [u8],
    k: Option<usize>,
    form: u32,
    level: u32,
    kind: u32,
) -> Option<usize>
    ensures { Puts (filled k bytes.old) (forms.before_entry form level kind) (filled result bytes.new) }
{
    if (kind == kind::START) | (kind == kind::EMPTY) {
        let led = put_lead(bytes, k, form, level);
        return put(bytes, led, b"<");
    }
    if kind == kind::END {
        let led = put_lead(bytes, k, form, one_less(level));
        return put(bytes, led, b"</");
    }
    if kind == kind::OTHER {
        let led = put_lead(bytes, k, form, level);
        return put(bytes, led, b"<?");
    }
    if is_text(kind) {
        return put_closing(bytes, k, form);
    }
    if kind == kind::INDENT {
        return put_break(bytes, k, form, level);
    }
    k
}

// What comes before the bytes of an entry of that kind.
pub fn put_before(
    bytes: &mut [u8],
    k: Option<usize>,
    form: u32,
    level: u32,
    kind: u32,
) -> Option<usize>
    ensures { Puts (filled k bytes.old) (forms.before form level kind) (filled result bytes.new) }
{
    if form == form::TABLE {
        return k;
    }
    put_before_xml(bytes, k, form, level, kind)
}

pub fn put_behind(bytes: &mut [u8], k: Option<usize>, form: u32, kind: u32) -> Option<usize>
    ensures { Puts (filled k bytes.old) (forms.behind form kind) (filled result bytes.new) }
{
    if form == form::TABLE {
        return k;
    }
    if kind == kind::OTHER {
        return put(bytes, k, b"?>");
    }
    k
}

// What comes behind a value.
pub fn put_quote(bytes: &mut [u8], k: Option<usize>, form: u32) -> Option<usize>
    ensures { Puts (filled k bytes.old) (forms.quote_in form) (filled result bytes.new) }
{
    if form == form::TABLE {
        return k;
    }
    put(bytes, k, b"\"")
}

// A key that no code stands for.
pub fn put_raw_key(bytes: &mut [u8], k: Option<usize>, form: u32, key: &[u8]) -> Option<usize>
    ensures { Puts (filled k bytes.old) (forms.key_in form key.now) (filled result bytes.new) }
{
    if form == form::TABLE {
        return put(bytes, k, key);
    }
    let begun = put(bytes, k, b" ");
    let named = put(bytes, begun, key);
    put(bytes, named, b"=\"")
}
