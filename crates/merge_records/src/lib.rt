// The records of a tree behind its report: what they need in another, and they themselves copied there.
#![tactic(auto)]

ghost use Rattle.std.specs.Prelude.{◌≡◌, not, ◌&&◌, ◌+◌, ◌*◌, ◌≤◌, length, ltb, eqb};
ghost use Rattle.merge_rows.specs.of_area.Limits.{most_words};
ghost use Rattle.merge_records.specs.inside.Copied.{below_in, sizes_in, records_for, texts_for, Room};
ghost use Rattle.merge_rows.specs.of_schema.Stores.{splice};

pub use merge_rows as the_merge_rows;
use merge_rows::the_list_sums::rows::stands_here;
use merge_rows::the_tree_record::{field, kind, word};
pub use merge_rows::{
    the_list_values, the_starts, the_tree_counts, the_tree_layout, the_tree_record,
};
use merge_rows::{move_row, sizes_of};

#[derive(Clone, Copy)]
pub struct Needs {
    pub records: usize,
    pub bytes: u64,
}

// Where the next record and the next text go.
#[derive(Clone, Copy)]
pub struct Mark {
    pub word: usize,
    pub fill: usize,
}

// A live record that is no report.
fn is_below(k: u32) -> bool
    ensures { result ≡ (ltb k 16 && not (eqb k 1)) }
{
    (k < kind::DEAD) & (k != kind::REPORT)
}

// Texts that share bytes count each by itself.
pub fn needs_of(words: &[u32]) -> Needs
    requires { length words.now ≤ most_words }
    ensures records_value { (result.records ≡ length (below_in words.now)) × (result.bytes ≡ sizes_in (below_in words.now)) }
    ensures records_in_bounds { (result.records * 32 ≤ length words.now) × (result.bytes ≤ length words.now * 1073741824) }
{
    let mut records = 0;
    let mut bytes = 0;
    let mut at = 0;
    // while: each turn passes a whole record.
    while stands_here(&words[at..]) {
        let end = at + 32;
        let r = &words[at..end];
        at = end;
        if is_below(field(r, word::KIND)) {
            records += 1;
            bytes += sizes_of(r);
        }
    }
    Needs { records, bytes }
}

// There is room for all of them.
pub fn put_rows(words: &[u32], text: &[u8], out: &mut [u32], bytes: &mut [u8], from: Mark) -> Mark
    requires { Room text.now (below_in words.now) from out.old bytes.old }
    ensures word_value { (result.word ≡ from.word + length (below_in words.now) * 32) × (result.fill ≡ from.fill + length (texts_for text.now (below_in words.now))) }
    ensures out_after { out.new ≡ splice from.word (records_for text.now from.fill (below_in words.now)) out.old }
    ensures bytes_after { bytes.new ≡ splice from.fill (texts_for text.now (below_in words.now)) bytes.old }
{
    let mut next = from.word;
    let mut fill = from.fill;
    let mut at = 0;
    // while: each turn passes a whole record.
    while stands_here(&words[at..]) {
        let end = at + 32;
        let r = &words[at..end];
        at = end;
        if is_below(field(r, word::KIND)) {
            let behind = next + 32;
            fill = move_row(&mut out[next..behind], bytes, fill, text, r);
            next = behind;
        }
    }
    Mark { word: next, fill }
}
