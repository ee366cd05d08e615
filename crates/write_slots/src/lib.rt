// The attributes of an element by their key codes, in the order of the codes; those that a record doesn't have are left out.
#![tactic(auto)]

ghost use Rattle.std.specs.Prelude.{◌≡◌, List, ◌∷◌, ℕ, ◌+◌, ◌≤◌, length};
ghost use Rattle.write_entries.specs.of_write_table.Laid.{entry, pairs_of_it};
ghost use Rattle.write_entries.specs.of_write_table.inside.Putting.{Wrote};
ghost use Rattle.write_entries.specs.of_write_marks.inside.Kept.{kept};
ghost use Rattle.write_entries.specs.of_write_items.inside.Values.{tag_name};
ghost use Rattle.write_entries.specs.of_write_items.inside.Slots.{is_present, slots, count_of};

use write_entries::the_tree_record::has_bit;
use write_entries::the_write_codes::{ALWAYS, bit_of};
use write_entries::the_write_marks::Marks;
use write_entries::{put_attribute, put_tag};

fn is_present(r: &[u32], code: u8) -> bool
    ensures { result ≡ is_present r.now code }
{
    let place = bit_of(code);
    if place == ALWAYS {
        return true;
    }
    has_bit(r, place)
}

fn count_slots(r: &[u32], codes: &[u8]) -> usize
    ensures value { result ≡ count_of r.now codes.now }
    ensures upper_bound { result ≤ length codes.now }
{
    let mut n = 0;
    for code in codes {
        if is_present(r, *code) {
            n += 1;
        }
    }
    n
}

fn put_slots(
    attributes: &mut [u32],
    bytes: &mut [u8],
    k: Marks,
    text: &[u8],
    r: &[u32],
    codes: &[u8],
) -> Marks
    ensures { (ev : List ℕ) → Wrote (kept k ev attributes.old bytes.old)
        (pairs_of_it (slots text.now r.now codes.now)) (kept result ev attributes.new bytes.new) }
{
    let mut mark = k;
    for code in codes {
        if is_present(r, *code) {
            mark = put_attribute(attributes, bytes, mark, text, r, *code);
        }
    }
    mark
}

// A Start or Empty of that tag name, with the attributes of these codes, and so many more to come (rule W2).
pub fn put_element(
    events: &mut [u32],
    attributes: &mut [u32],
    bytes: &mut [u8],
    k: Marks,
    text: &[u8],
    r: &[u32],
    kind: u32,
    tag: u8,
    codes: &[u8],
    more: usize,
) -> Marks
    requires { (length codes.now ≤ 255) × (more ≤ 1152921504606846976) }
    ensures { Wrote (kept k events.old attributes.old bytes.old) (entry kind (tag_name tag) (length (slots text.now r.now
        codes.now) + more) ∷ pairs_of_it (slots text.now r.now codes.now)) (kept result events.new attributes.new bytes.new) }
{
    let count = count_slots(r, codes) + more;
    let opened = put_tag(events, bytes, k, kind, tag, count);
    put_slots(attributes, bytes, opened, text, r, codes)
}
