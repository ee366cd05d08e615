// An element's record, extras and texts from its attributes (the attribute loops of deserialize.rs).
#![tactic(auto)]

ghost use Rattle.std.specs.Prelude.{◌≡◌, ◌&&◌, ◌≤◌, ◌*◌, length, leb};
ghost use Rattle.read_all.specs.of_area.Area.{zeros};
ghost use Rattle.read_all.specs.of_read_element.inside.Refines.{tagged, areas};
ghost use Rattle.read_all.specs.of_refusal.Refusal.{nowhere};
ghost use Rattle.read_attributes.specs.inside.Elements.{missing_of, fault_element, Free, known_of, Vacant, ReadsElement};

use read_all::read_all;
use read_all::the_read_attribute::Range;
use read_all::the_read_fault::Fault;
use read_all::the_read_free::free_to;
use read_all::the_refusal::{Cause, NOWHERE};
use read_all::the_tree_record::{has_bit, put_field};
pub use read_all::{the_read_attribute, the_read_fault, the_text_filter, the_tree_put};

// How many records the element takes, its own and its extras; where the texts end; and a range of attributes without a
// repeated key.
#[derive(Clone, Copy)]
pub struct Grown {
    pub records: usize,
    pub fill: usize,
    pub free: Range,
}

// The code of the first attribute that the element lacks, or 0 (rule A10).
fn missing_of(kind: u32, own: &[u32]) -> u32
    ensures { result ≡ missing_of kind own.now }
{
    if (2 <= kind) & (kind <= 5) & !has_bit(own, 0) {
        return 1;
    }
    if (4 <= kind) & (kind <= 5) & !has_bit(own, 1) {
        return 14;
    }
    0
}

fn refused(cause: Cause, key: u32) -> Result<Grown, Fault>
    ensures { result ≡ fault_element cause key nowhere }
{
    Err(Fault {
        cause,
        key,
        attribute: NOWHERE,
    })
}

fn is_within(known: Range, range: Range) -> bool
    ensures { result ≡ (leb known.first range.first && leb range.end known.end) }
{
    (known.first <= range.first) & (range.end <= known.end)
}

// The range whose keys are now known to be free of repeats.
fn known_of(known: Range, range: Range) -> Range
    ensures { result ≡ known_of known range }
{
    if (range.first == range.end) | is_within(known, range) {
        return known;
    }
    range
}

// A number up to which no two attributes of the range have the same key. The words and bytes lent are zero, and are so again
// afterwards.
fn clear_to(
    attributes: &[u32],
    source: &[u8],
    range: Range,
    known: Range,
    own: &mut [u32],
    spare: &mut [u8],
) -> usize
    requires first_le_end { range.first ≤ range.end }
    requires end_in_bounds { range.end * 5 ≤ length attributes.now }
    requires end_bound { range.end ≤ 65536 }
    requires own_value { own.old ≡ zeros (length own.old) }
    requires spare_value { spare.old ≡ zeros (length spare.old) }
    requires free { Free attributes.now source.now known.first known.end }
    ensures free_2 { Free attributes.now source.now range.first result }
    ensures own_after { own.new ≡ zeros (length own.old) }
    ensures spare_after { spare.new ≡ zeros (length spare.old) }
{
    if is_within(known, range) {
        return range.end;
    }
    free_to(attributes, source, range.first, range.end, own, spare)
}

// The element whose record has room.
fn read_record(
    kind: u32,
    attributes: &[u32],
    source: &[u8],
    range: Range,
    known: Range,
    clear: usize,
    fill: usize,
    own: &mut [u32],
    text: &mut [u8],
) -> Result<Grown, Fault>
    requires kind_bound { kind ≤ 12 }
    requires in_bounds { 32 ≤ length own.old }
    requires free { Free attributes.now source.now range.first clear }
    requires vacant { Vacant (tagged attributes.now source.now) range known fill (areas own.old text.old) }
    ensures { ReadsElement kind (tagged attributes.now source.now) range fill
        (areas own.old text.old) (areas own.new text.new) result }
{
    put_field(own, 0, kind);
    let given = read_all(kind, attributes, source, range, clear, fill, own, text)?;
    let lacking = missing_of(kind, own);
    if lacking != 0 {
        return refused(Cause::MissingAttribute, lacking);
    }
    Ok(Grown {
        records: given.extras + 1,
        fill: given.fill,
        free: known_of(known, range),
    })
}

// Reads an element of a record's kind with the attributes of `range`. Its record and its extras go to the front of `own`, which
// is zero, its texts behind the `fill` bytes that the text area holds. The keys of the attributes in `known` are free of repeats.
// Where there is no record, it is refused before its attributes are looked at (rule M2), with its own path (rule F9).
pub fn read_element(
    kind: u32,
    attributes: &[u32],
    source: &[u8],
    range: Range,
    known: Range,
    fill: usize,
    own: &mut [u32],
    text: &mut [u8],
) -> Result<Grown, Fault>
    requires kind_bound { kind ≤ 12 }
    requires vacant { Vacant (tagged attributes.now source.now) range known fill (areas own.old text.old) }
    ensures { ReadsElement kind (tagged attributes.now source.now) range fill
        (areas own.old text.old) (areas own.new text.new) result }
{
    if own.len() < 32 {
        return refused(Cause::RecordsSpent, 0);
    }
    let clear = clear_to(attributes, source, range, known, own, &mut text[fill..]);
    read_record(
        kind, attributes, source, range, known, clear, fill, own, text,
    )
}
