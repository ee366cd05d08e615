// Marks of what is written, which is only appended to, and the entries that are put there: in the three areas of a table, or as XML in
// the byte area alone. `bytes` is None once something didn't fit, and then nothing more is put.
#![tactic(auto)]

ghost use Rattle.std.specs.Prelude.{◌≡◌, List, [], ◌∷◌, ◌++◌, ℕ, ◌-◌, ◌≤◌, ◌<◌, not, cond};
ghost use Rattle.write_bytes.specs.of_list_text.inside.Behind.{is_full, filled, Puts};
ghost use Rattle.write_form.specs.of_write_table.Laid as laid;
ghost use Rattle.write_form.specs.of_write_table.inside.Forms.{before, behind, key_in, quote_in};
ghost use Rattle.write_form.specs.of_write_table.inside.Putting.{Wrote, entry_limits};
ghost use Rattle.write_marks.specs.inside.Kept.{kept, shut_by, event_more, attribute_more, entry_more, text_more};

use write_bytes::put_words;
pub use write_bytes::the_list_text;
pub use write_codes as the_write_codes;
use write_codes::has_pair_room;
use write_codes::the_area::limit;
pub use write_codes::{the_names, the_table, the_tree_record};
pub use write_form as the_write_form;
use write_form::{form, form_behind, is_too_deep, level_behind};

// The numbers of events and attributes, and how many bytes; in the XML form what stands before, and how many elements are open. Four
// numbers of 32 bits, since marks go through every call by memory.
#[derive(Clone, Copy)]
pub struct Marks {
    pub events: u32,
    pub attributes: u32,
    pub form: u32,
    pub level: u32,
    pub bytes: Option<usize>,
}

// Whether there may be room for more.
pub fn is_open(k: Marks) -> bool
    ensures { result ≡ not (is_full k.bytes) }
{
    write_bytes::the_list_text::is_open(k.bytes)
}

fn shut(k: Marks) -> Marks
    ensures { result ≡ shut_by k }
{
    Marks { bytes: None, ..k }
}

fn event_more(k: Marks, to: Option<usize>) -> Marks
    requires { k.events ≤ 65535 }
    ensures { result ≡ event_more k to }
{
    Marks {
        events: k.events + 1,
        bytes: to,
        ..k
    }
}

fn attribute_more(k: Marks, to: Option<usize>) -> Marks
    requires { k.attributes ≤ 65535 }
    ensures { result ≡ attribute_more k to }
{
    Marks {
        attributes: k.attributes + 1,
        bytes: to,
        ..k
    }
}

// A number as a word; what is put never has a larger one.
fn word(n: usize) -> u32
    ensures { n ≤ 4294967295 → result ≡ n }
{
    u32::try_from(n).unwrap_or(0)
}

// 0 without length or count (rule W12).
fn place(n: usize, at: usize) -> u32
    ensures { at ≤ 4294967295 → result ≡ laid.place n at }
{
    if n == 0 {
        return 0;
    }
    word(at)
}

fn has_entry_room(events: usize, bytes: usize, attributes: usize, count: usize) -> bool
    ensures { result ≡ entry_limits events bytes attributes count }
{
    if limit::ENTRIES < count {
        return false;
    }
    (events < limit::ENTRIES) & ((bytes <= limit::BYTES) & (attributes <= limit::ENTRIES - count))
}

// In the XML form: an entry of that kind was put up to `to`.
pub fn entry_more(k: Marks, to: Option<usize>, kind: u32) -> Marks
    ensures { result ≡ entry_more k to kind }
{
    if is_too_deep(k.level, kind) {
        return shut(k);
    }
    let form = form_behind(k.form, kind);
    let level = level_behind(k.level, kind);
    let Some(end) = to else {
        return Marks {
            form,
            level,
            bytes: None,
            ..k
        };
    };
    // `Some(end)` made anew: a copy of `to` waits for memory.
    Marks {
        form,
        level,
        bytes: Some(end),
        ..k
    }
}

pub fn text_more(k: Marks, to: Option<usize>) -> Marks
    ensures { result ≡ text_more k to }
{
    let Some(end) = to else {
        return shut(k);
    };
    // As in `entry_more`.
    Marks {
        bytes: Some(end),
        ..k
    }
}

// An event of a table.
pub fn store_entry(
    events: &mut [u32],
    k: Marks,
    to: Option<usize>,
    kind: u32,
    count: usize,
) -> Marks
    ensures { k.form ≡ 0 → (at by by' s : List ℕ) → Puts (filled k.bytes by) s (filled to by')
        → Wrote (kept k events.old at by) (laid.entry kind s count ∷ []) (kept result events.new at by') }
{
    let Some(from) = k.bytes else {
        return k;
    };
    let Some(end) = to else {
        return shut(k);
    };
    if !has_entry_room(k.events as usize, end, k.attributes as usize, count) {
        return shut(k);
    }
    let n = end.saturating_sub(from);
    let start = place(n, from);
    let first = place(count, k.attributes as usize);
    let entry = [kind, start, word(n), first, word(count)];
    let put = put_words(events, Some(k.events as usize * 5), &entry);
    let Some(_) = put else {
        return shut(k);
    };
    event_more(k, Some(end))
}

// An event whose bytes, with what stands around them, were put up to `to`, with so many attributes behind it (rules W12 and W18).
pub fn store_event(
    events: &mut [u32],
    k: Marks,
    to: Option<usize>,
    kind: u32,
    count: usize,
) -> Marks
    ensures { (at by by' s : List ℕ) → Puts (filled k.bytes by) (before k.form k.level kind ++ (s ++ behind k.form kind)) (filled to by')
        → Wrote (kept k events.old at by) (laid.entry kind s count ∷ []) (kept result events.new at by') }
{
    if k.form == form::TABLE {
        return store_entry(events, k, to, kind, count);
    }
    entry_more(k, to, kind)
}

// An attribute of a table.
pub fn store_pair(
    attributes: &mut [u32],
    k: Marks,
    middle: Option<usize>,
    to: Option<usize>,
) -> Marks
    ensures { k.form ≡ 0 → (ev by by' by'' key value : List ℕ) → Puts (filled k.bytes by) key (filled middle by') → Puts (filled middle by') value (filled to by'')
        → Wrote (kept k ev attributes.old by) (laid.pair key value ∷ []) (kept result ev attributes.new by'') }
{
    let Some(from) = k.bytes else {
        return k;
    };
    let Some(half) = middle else {
        return shut(k);
    };
    let Some(end) = to else {
        return shut(k);
    };
    if !has_pair_room(k.attributes as usize, end) {
        return shut(k);
    }
    let n = half.saturating_sub(from);
    let m = end.saturating_sub(half);
    let start = place(n, from);
    let behind = place(m, half);
    let entry = [0, start, word(n), behind, word(m)];
    let put = put_words(attributes, Some(k.attributes as usize * 5), &entry);
    let Some(_) = put else {
        return shut(k);
    };
    attribute_more(k, Some(end))
}

// An attribute whose key was put up to `middle`, and its value from there up to `to`, each with what stands around it (rules W12 and
// W18).
pub fn store_attribute(
    attributes: &mut [u32],
    k: Marks,
    middle: Option<usize>,
    to: Option<usize>,
) -> Marks
    ensures { (ev by by' by'' key value : List ℕ) → Puts (filled k.bytes by) (key_in k.form key) (filled middle by')
        → Puts (filled middle by') (value ++ quote_in k.form) (filled to by'')
        → Wrote (kept k ev attributes.old by) (laid.pair key value ∷ []) (kept result ev attributes.new by'') }
{
    if k.form == form::TABLE {
        return store_pair(attributes, k, middle, to);
    }
    text_more(k, to)
}
