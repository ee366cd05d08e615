// Entries of what is written, from codes and records, in the form that the marks say.
#![tactic(auto)]

ghost use Rattle.std.specs.Prelude.{List, [], ◌∷◌, ℕ, ◌≤◌};
ghost use Rattle.write_marks.specs.of_names.Bytes as names;
ghost use Rattle.write_marks.specs.of_table.Kinds as event;
ghost use Rattle.write_marks.specs.of_tree_record.Words as word;
ghost use Rattle.write_marks.specs.of_tree_report.Fields.{text_at};
ghost use Rattle.write_marks.specs.of_write_escape.Escape.{escaped};
ghost use Rattle.write_marks.specs.of_write_table.Laid.{entry, pair};
ghost use Rattle.write_marks.specs.of_write_table.inside.Putting.{Wrote};
ghost use Rattle.write_marks.specs.inside.Kept.{kept};
ghost use Rattle.write_marks.specs.of_write_items.inside.Values.{tag_name, key_name, value_of};

pub use write_marks as the_write_marks;
use write_marks::the_table::kind;
use write_marks::the_tree_record::{field, word};
use write_marks::the_write_form::form;
pub use write_marks::{the_list_text, the_names, the_table, the_tree_record, the_write_codes};
use write_marks::{Marks, entry_more, store_entry, store_event, store_pair, text_more};
pub use write_values as the_write_values;
use write_values::the_list_values::part_of;
pub use write_values::the_write_tags;
use write_values::the_write_tags::{put_before, put_behind, put_quote, put_raw_key};
use write_values::{put_key, put_tag_name, put_text_at, put_value};

// A Start, Empty or End.
pub fn put_tag(
    events: &mut [u32],
    bytes: &mut [u8],
    k: Marks,
    kind: u32,
    code: u8,
    count: usize,
) -> Marks
    ensures { (at : List ℕ) → Wrote (kept k events.old at bytes.old) (entry kind (tag_name code) count ∷ []) (kept result events.new at bytes.new) }
{
    let mark = k.bytes;
    if k.form == form::TABLE {
        let end = put_tag_name(bytes, mark, code);
        return store_entry(events, k, end, kind, count);
    }
    let from = put_before(bytes, mark, k.form, k.level, kind);
    let named = put_tag_name(bytes, from, code);
    let to = put_behind(bytes, named, k.form, kind);
    entry_more(k, to, kind)
}

// A Text: the text at the words o and o + 1.
pub fn put_text(
    events: &mut [u32],
    bytes: &mut [u8],
    k: Marks,
    text: &[u8],
    r: &[u32],
    o: usize,
) -> Marks
    requires { o ≤ 30 }
    ensures { (at : List ℕ) → Wrote (kept k events.old at bytes.old)
        (entry event.text (escaped (text_at text.now r.now o)) 0 ∷ []) (kept result events.new at bytes.new) }
{
    let mark = k.bytes;
    if k.form == form::TABLE {
        let end = put_text_at(bytes, mark, text, r, o);
        return store_entry(events, k, end, kind::TEXT, 0);
    }
    let from = put_before(bytes, mark, k.form, k.level, kind::TEXT);
    let to = put_text_at(bytes, from, text, r, o);
    entry_more(k, to, kind::TEXT)
}

// An Eof or Indent.
pub fn put_bare(events: &mut [u32], bytes: &mut [u8], k: Marks, kind: u32) -> Marks
    ensures { (at : List ℕ) → Wrote (kept k events.old at bytes.old) (entry kind [] 0 ∷ []) (kept result events.new at bytes.new) }
{
    let mark = k.bytes;
    let from = put_before(bytes, mark, k.form, k.level, kind);
    let to = put_behind(bytes, from, k.form, kind);
    store_event(events, k, to, kind, 0)
}

// An Other (rule W1).
pub fn put_declaration(events: &mut [u32], bytes: &mut [u8], k: Marks) -> Marks
    ensures { (at : List ℕ) → Wrote (kept k events.old at bytes.old)
        (entry event.other (names.bytes "xml version=\"1.0\" encoding=\"UTF-8\"") 0 ∷ []) (kept result events.new at bytes.new) }
{
    let mark = k.bytes;
    let from = put_before(bytes, mark, k.form, k.level, kind::OTHER);
    let said = write_marks::the_list_text::put(
        bytes,
        from,
        b"xml version=\"1.0\" encoding=\"UTF-8\"",
    );
    let to = put_behind(bytes, said, k.form, kind::OTHER);
    store_event(events, k, to, kind::OTHER, 0)
}

// The attribute with that key code.
pub fn put_attribute(
    attributes: &mut [u32],
    bytes: &mut [u8],
    k: Marks,
    text: &[u8],
    r: &[u32],
    code: u8,
) -> Marks
    ensures { (ev : List ℕ) → Wrote (kept k ev attributes.old bytes.old)
        (pair (key_name code) (value_of text.now r.now code) ∷ []) (kept result ev attributes.new bytes.new) }
{
    let from = k.bytes;
    let middle = put_key(bytes, from, k.form, code);
    let value = put_value(bytes, middle, text, r, code);
    if k.form == form::TABLE {
        return store_pair(attributes, k, middle, value);
    }
    let to = put_quote(bytes, value, k.form);
    text_more(k, to)
}

// An extra (rule W8): its key isn't escaped (serialize.rs pushes it as it is).
pub fn put_extra(
    attributes: &mut [u32],
    bytes: &mut [u8],
    k: Marks,
    text: &[u8],
    r: &[u32],
) -> Marks
    ensures { (ev : List ℕ) → Wrote (kept k ev attributes.old bytes.old) (pair (text_at text.now r.now word.key)
        (escaped (text_at text.now r.now word.value)) ∷ []) (kept result ev attributes.new bytes.new) }
{
    let key = part_of(text, field(r, word::KEY), field(r, word::KEY + 1));
    let from = k.bytes;
    let middle = put_raw_key(bytes, from, k.form, key);
    let value = put_text_at(bytes, middle, text, r, word::VALUE);
    if k.form == form::TABLE {
        return store_pair(attributes, k, middle, value);
    }
    let to = put_quote(bytes, value, k.form);
    text_more(k, to)
}
