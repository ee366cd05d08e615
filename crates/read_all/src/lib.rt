// An element's attributes, one after the other: with marks of those that are the first with their key, where keys don't stand for
// themselves and there is room behind the records.
#![tactic(auto)]

ghost use Rattle.std.specs.Prelude.{◌+◌, ◌-◌, ◌*◌, ◌≤◌, ◌≡◌, length, take, drop};
ghost use Rattle.read_indexed.specs.of_area.Area.{zeros};
ghost use Rattle.read_indexed.specs.of_read_marks.inside.Marks.{Marks};
ghost use Rattle.read_indexed.specs.of_read_element.inside.Refines.{tagged, areas};
ghost use Rattle.read_indexed.specs.of_read_plain.inside.Plain.{Plain};
ghost use Rattle.read_indexed.specs.of_read_each.inside.Promises.{Begins, ReadsAttributes, ReadsWithin};

use read_indexed::read_marked;
use read_indexed::the_area::clear_words;
use read_indexed::the_read_attribute::Range;
use read_indexed::the_read_each::read_each;
use read_indexed::the_read_extra_record::Given;
use read_indexed::the_read_fault::Fault;
use read_indexed::the_read_marks::mark_range;
use read_indexed::the_read_plain::plain_to;
use read_indexed::the_tree_record::kind::{CASE, SUITE};
pub use read_indexed::{
    the_read_attribute, the_read_fault, the_read_free, the_refusal, the_text_filter, the_tree_put,
    the_tree_record,
};

const FEW: usize = 8;

// Marks go to the words from number k on, which are zero; the bytes of text behind `fill`, which are zero, are so again.
fn mark_words(
    attributes: &[u32],
    source: &[u8],
    range: Range,
    fill: usize,
    k: usize,
    own: &mut [u32],
    text: &mut [u8],
)
    requires first_le_end { range.first ≤ range.end }
    requires end_bound { range.end ≤ 65536 }
    requires first_in_bounds { k + (range.end - range.first) ≤ length own.old }
    requires first_in_bounds_2 { fill + (range.end - range.first) * 4 ≤ length text.old }
    requires own_value { drop k own.old ≡ zeros (length own.old - k) }
    requires text_value { drop fill text.old ≡ zeros (length text.old - fill) }
    ensures own_unchanged { take k own.new ≡ take k own.old }
    ensures marks { Marks attributes.now source.now range.first (drop k own.new) }
    ensures text_unchanged { text.new ≡ text.old }
{
    mark_range(
        attributes,
        source,
        range.first,
        range.end,
        &mut own[k..],
        &mut text[fill..],
    );
}

// The words that the marks took are zero again afterwards.
fn read_cleared(
    kind: u32,
    attributes: &[u32],
    source: &[u8],
    range: Range,
    clear: usize,
    fill: usize,
    own: &mut [u32],
    text: &mut [u8],
) -> Result<Given, Fault>
    requires kind_bound { kind ≤ 12 }
    requires first_in_bounds { (range.end - range.first) * 33 + 32 ≤ length own.old }
    requires first_in_bounds_2 { fill + (range.end - range.first) * 4 ≤ length text.old }
    requires begins { Begins kind (tagged attributes.now source.now) range clear fill (areas own.old text.old) }
    ensures { ReadsWithin kind (tagged attributes.now source.now) range fill
        (areas own.old text.old) (areas own.new text.new) result }
{
    let k = (range.end - range.first) * 32 + 32;
    mark_words(attributes, source, range, fill, k, own, text);
    let step = read_marked(kind, attributes, source, range, clear, fill, k, own, text);
    clear_words(&mut own[k..]);
    step
}

// A number up to which the keys of the range stand for themselves: that of its first attribute, where nothing was looked for.
fn plain_of(attributes: &[u32], source: &[u8], range: Range, few: bool) -> usize
    requires first_le_end { range.first ≤ range.end }
    requires end_in_bounds { range.end * 5 ≤ length attributes.now }
    ensures { Plain attributes.now source.now range.first result }
{
    if few {
        return range.first;
    }
    plain_to(attributes, source, range.first, range.end)
}

// No two attributes of the range before number `clear` have the same key. Where all keys stand for themselves, an extra's place is told
// by that. Else marks take a word for each attribute, behind room for an extra from each, and sorting takes four bytes for each, behind
// the texts; where there are fewer, or few attributes, each extra is looked for among those before it. Only a suite and a case have
// extras.
pub fn read_all(
    kind: u32,
    attributes: &[u32],
    source: &[u8],
    range: Range,
    clear: usize,
    fill: usize,
    own: &mut [u32],
    text: &mut [u8],
) -> Result<Given, Fault>
    requires kind_bound { kind ≤ 12 }
    requires begins { Begins kind (tagged attributes.now source.now) range clear fill (areas own.old text.old) }
    ensures { ReadsAttributes kind (tagged attributes.now source.now) range fill
        (areas own.old text.old) (areas own.new text.new) result }
{
    let n = range.end - range.first;
    let few = (n <= FEW) | ((kind < SUITE) | (CASE < kind));
    let plain = plain_of(attributes, source, range, few);
    let e = n * 33 + 32;
    let room = fill + n * 4;
    if few | ((own.len() < e) | ((text.len() < room) | (plain == range.end))) {
        return read_each(
            kind, attributes, source, range, clear, plain, fill, own, text,
        );
    }
    read_cleared(
        kind,
        attributes,
        source,
        range,
        clear,
        fill,
        &mut own[..e],
        text,
    )
}
