// One record of a tree copied into another: its words, with the starts that its texts get there, and the texts.
#![tactic(auto)]

ghost use Rattle.std.specs.Prelude.{◌≡◌, ◌&&◌, ◌+◌, ◌≤◌, ◌<◌, length};
ghost use Rattle.write_bytes.specs.of_area.Limits.{most_bytes};
ghost use Rattle.write_bytes.specs.of_tree_record.Record.{has_bit};
ghost use Rattle.write_bytes.specs.of_schema.Stores.{splice};
ghost use Rattle.merge_rows.specs.inside.Slots as slots;

use tree_merge::the_list_values::part_of;
pub use tree_merge::{
    the_list_sums, the_list_values, the_starts, the_tree_counts, the_tree_layout,
};
use write_bytes::put_words;
use write_bytes::the_area::copy_into;
pub use write_bytes::the_tree_record;
use write_bytes::the_tree_record::{bit, field, has_bit, kind, put_field, word};

// The presence bits that tell of texts in a record of this kind.
fn text_bits(k: u32) -> u32
    ensures { result ≡ slots.text_bits k }
{
    if k == kind::SUITE {
        return 1031;
    }
    if k == kind::CASE {
        return 39;
    }
    if k <= kind::CASE_PROPERTY {
        return 3;
    }
    if k <= kind::SKIPPED {
        return 97;
    }
    if k <= kind::RERUN_ERROR {
        return 231;
    }
    3
}

// `slot` says whether the presence bit k tells of a text.
fn has_text(r: &[u32], slot: bool, k: u32) -> bool
    ensures { result ≡ slots.has_text slot k r.now }
{
    slot & has_bit(r, k)
}

// How many bytes the text at the words o and o + 1 has, 0 without one.
fn size_at(r: &[u32], slot: bool, k: u32, o: usize) -> u64
    requires { o ≤ 30 }
    ensures value { result ≡ slots.size_at slot k o r.now }
    ensures upper_bound { result < 4294967296 }
{
    if has_text(r, slot, k) {
        return field(r, o + 1) as u64;
    }
    0
}

// Of all texts of a record.
pub fn sizes_of(r: &[u32]) -> u64
    ensures value { result ≡ slots.sizes_of r.now }
    ensures upper_bound { result < 30064771072 }
{
    let m = text_bits(field(r, word::KIND));
    size_at(r, m % 2 == 1, bit::NAME, word::NAME)
        + size_at(r, m / 2 % 2 == 1, bit::OUT, word::OUT)
        + size_at(r, m / 4 % 2 == 1, bit::ERR, word::ERR)
        + size_at(r, m / 32 % 2 == 1, bit::TYPE, word::TYPE)
        + size_at(r, m / 64 % 2 == 1, bit::DESCRIPTION, word::DESCRIPTION)
        + size_at(r, m / 128 % 2 == 1, bit::STACK_TRACE, word::STACK_TRACE)
        + size_at(r, m / 1024 % 2 == 1, bit::HOSTNAME, word::HOSTNAME)
}

// Puts s behind the first `fill` bytes, and says how many are in use then.
pub fn put_text(bytes: &mut [u8], fill: usize, s: &[u8]) -> usize
    requires { fill + length s.now ≤ length bytes.old }
    ensures value { result ≡ fill + length s.now }
    ensures bytes_after { bytes.new ≡ splice fill s.now bytes.old }
{
    copy_into(&mut bytes[fill..], s);
    fill + s.len()
}

// One text of the record r, whose words are those of `row` but for the starts of its texts.
fn move_text(
    row: &mut [u32],
    bytes: &mut [u8],
    fill: usize,
    text: &[u8],
    r: &[u32],
    slot: bool,
    k: u32,
    o: usize,
) -> usize
    requires { (o ≤ 30) × (fill + length (slots.text_at slot k o text.now r.now) ≤ length bytes.old) × (length bytes.old ≤ most_bytes) }
    ensures value { result ≡ fill + length (slots.text_at slot k o text.now r.now) }
    ensures row_after { row.new ≡ slots.start_at slot k o r.now fill row.old }
    ensures bytes_after { bytes.new ≡ splice fill (slots.text_at slot k o text.now r.now) bytes.old }
{
    if has_text(r, slot, k) {
        put_field(row, o, fill as u32);
        return put_text(bytes, fill, part_of(text, field(r, o), field(r, o + 1)));
    }
    fill
}

// The texts before a record's times.
fn move_front(
    row: &mut [u32],
    bytes: &mut [u8],
    fill: usize,
    text: &[u8],
    r: &[u32],
    m: u32,
) -> usize
    requires { (fill + length (slots.front_texts m text.now r.now) ≤ length bytes.old) × (length bytes.old ≤ most_bytes) }
    ensures value { result ≡ fill + length (slots.front_texts m text.now r.now) }
    ensures row_after { row.new ≡ slots.front_moved m text.now fill r.now row.old }
    ensures bytes_after { bytes.new ≡ splice fill (slots.front_texts m text.now r.now) bytes.old }
{
    let a = move_text(row, bytes, fill, text, r, m % 2 == 1, bit::NAME, word::NAME);
    let b = move_text(row, bytes, a, text, r, m / 2 % 2 == 1, bit::OUT, word::OUT);
    move_text(row, bytes, b, text, r, m / 4 % 2 == 1, bit::ERR, word::ERR)
}

// Those behind them.
fn move_back(
    row: &mut [u32],
    bytes: &mut [u8],
    fill: usize,
    text: &[u8],
    r: &[u32],
    m: u32,
) -> usize
    requires { (fill + length (slots.back_texts m text.now r.now) ≤ length bytes.old) × (length bytes.old ≤ most_bytes) }
    ensures value { result ≡ fill + length (slots.back_texts m text.now r.now) }
    ensures row_after { row.new ≡ slots.back_moved m text.now fill r.now row.old }
    ensures bytes_after { bytes.new ≡ splice fill (slots.back_texts m text.now r.now) bytes.old }
{
    let a = move_text(
        row,
        bytes,
        fill,
        text,
        r,
        m / 32 % 2 == 1,
        bit::TYPE,
        word::TYPE,
    );
    let b = move_text(
        row,
        bytes,
        a,
        text,
        r,
        m / 64 % 2 == 1,
        bit::DESCRIPTION,
        word::DESCRIPTION,
    );
    let c = move_text(
        row,
        bytes,
        b,
        text,
        r,
        m / 128 % 2 == 1,
        bit::STACK_TRACE,
        word::STACK_TRACE,
    );
    let host = m / 1024 % 2 == 1;
    move_text(row, bytes, c, text, r, host, bit::HOSTNAME, word::HOSTNAME)
}

// Copies the record r into `row`, and its texts behind the first `fill` bytes; says how many are in use then.
pub fn move_row(row: &mut [u32], bytes: &mut [u8], fill: usize, text: &[u8], r: &[u32]) -> usize
    requires { (length row.old ≡ length r.now) × (fill + length (slots.row_texts text.now r.now) ≤ length bytes.old) × (length bytes.old ≤ most_bytes) }
    ensures value { result ≡ fill + length (slots.row_texts text.now r.now) }
    ensures row_after { row.new ≡ slots.row_moved_of text.now fill r.now }
    ensures bytes_after { bytes.new ≡ splice fill (slots.row_texts text.now r.now) bytes.old }
{
    put_words(row, Some(0), r);
    let m = text_bits(field(r, word::KIND));
    let a = move_front(row, bytes, fill, text, r, m);
    move_back(row, bytes, a, text, r, m)
}
