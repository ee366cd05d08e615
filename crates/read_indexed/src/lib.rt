// An element's attributes, one after the other. The words behind the records tell which attributes are the first with what would be
// stored for their keys, and where the extras of the others stand, so that no extra is looked for.
#![tactic(auto)]

ghost use Rattle.std.specs.Prelude.{◌≡◌, ◌+◌, ◌-◌, ◌*◌, ◌≤◌, length, take, drop};
ghost use Rattle.read_places.specs.of_text.Value.{value_text};
ghost use Rattle.read_places.specs.of_table.Event.{key_at};
ghost use Rattle.read_places.specs.of_read_element.inside.Held.{place_at};
ghost use Rattle.read_places.specs.of_read_element.inside.Refines.{tagged, areas};
ghost use Rattle.read_places.specs.of_read_marks.inside.Marks.{Marks};
ghost use Rattle.read_each.specs.inside.Promises.{Begins, ReadsWithin};
ghost use Rattle.read_places.specs.inside.Told.{Told};

pub use read_each as the_read_each;
use read_each::the_read_attribute::{Range, step_attribute};
use read_each::the_read_chains::key::key_at;
use read_each::the_read_extra_record::Given;
use read_each::the_read_fault::Fault;
pub use read_each::{
    the_read_attribute, the_read_extra_record, the_read_fault, the_read_free, the_read_plain,
};
use read_places::the_table_parts::word_of;
pub use read_places::{
    the_area, the_read_marks, the_refusal, the_text_filter, the_tree_put, the_tree_record,
};
use read_places::{is_at, note_extra, place_told};

// The place of the extra with the key of attribute j among the extras, or their number; more where that isn't told. A place that is told
// is compared once.
fn hint_for(
    attributes: &[u32],
    source: &[u8],
    first: usize,
    j: usize,
    extras: usize,
    k: usize,
    own: &[u32],
    text: &[u8],
) -> usize
    requires j_in_bounds { j * 5 + 5 ≤ length attributes.now }
    requires first_le_j { first ≤ j }
    requires extras_bound { extras ≤ 65536 }
    requires k_in_bounds { k ≤ length own.now }
    requires told { Told attributes.now source.now first j k extras own.now text.now }
    ensures { result ≤ extras → place_at (take k own.now) text.now (value_text (key_at attributes.now source.now j)) extras 0 ≡ result }
{
    let at = j - first;
    if word_of(&own[k..], at) == 1 {
        return extras;
    }
    let i = place_told(&own[k..], first, at);
    let key = key_at(attributes, source, j);
    if is_at(&own[..k], text, extras, i, key) {
        return i;
    }
    extras + 1
}

// The records stand in the first k words, which have room for an extra from each attribute; the words behind mark those that are new.
pub fn read_marked(
    kind: u32,
    attributes: &[u32],
    source: &[u8],
    range: Range,
    clear: usize,
    fill: usize,
    k: usize,
    own: &mut [u32],
    text: &mut [u8],
) -> Result<Given, Fault>
    requires kind_bound { kind ≤ 12 }
    requires first_bound { (range.end - range.first) * 32 + 32 ≤ k }
    requires k_in_bounds { k ≤ length own.old }
    requires marks { Marks attributes.now source.now range.first (drop k own.old) }
    requires begins { Begins kind (tagged attributes.now source.now) range clear fill (areas (take k own.old) text.old) }
    ensures { ReadsWithin kind (tagged attributes.now source.now) range fill
        (areas own.old text.old) (areas (take k own.new) text.new) result }
{
    let first = range.first;
    let mut given = Given { extras: 0, fill };
    for j in first..range.end {
        let free = j < clear;
        let extras = given.extras;
        let hint = hint_for(attributes, source, first, j, extras, k, own, text);
        given = step_attribute(
            kind,
            attributes,
            source,
            range,
            free,
            hint,
            j,
            given,
            &mut own[..k],
            text,
        )?;
        note_extra(extras, given.extras, first, j - first, k, own);
    }
    Ok(given)
}
