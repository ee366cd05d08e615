// Properties and extras of a draft's open suite or case.
#![tactic(auto)]

ghost use Rattle.std.specs.Prelude.{◌≡◌, List, ◌&&◌, true, false, ℕ, ◌+◌, ◌-◌, ◌*◌, ◌≤◌, length};
ghost use Rattle.list_values.specs.of_names.Names.{same_bytes};
ghost use Rattle.list_values.specs.of_refusal.Refusal.{accepted};
ghost use Rattle.list_values.specs.of_tree_record.Record.{text_at};
ghost use Rattle.build_kinds.specs.of_tree_put.Put.{put_pair, put_text};
ghost use Rattle.list_values.specs.of_tree_record.Words as word;
ghost use Rattle.list_values.specs.of_tree_record.Bits as bit;
ghost use Rattle.build_kinds.specs.of_build_draft.Draft.{draft_of, is_record, kind_at, on_record_of, last_of, next};
ghost use Rattle.build_kinds.specs.of_build_draft.Parts.{keeping, taking, is_main_kind, place_for, may_stand_behind, key_place};
ghost use Rattle.build_kinds.specs.of_build_draft.Calls.{is_suites, holder_of, is_held, old_place, put_pair_in, add_pair};
ghost use Rattle.build_pairs.specs.inside.Adding.{putting_kept};

use build_kinds::may_stand_behind;
use build_kinds::the_build_draft::{Builder, is_of, kind_at, last_of};
use build_kinds::the_tree_put::{put_pair, put_text};
use build_records::{exchange, take_record};
pub use build_text as the_build_text;
use build_text::keep;
use list_values::part_of;
use list_values::the_area::least;
use list_values::the_names::same;
use list_values::the_refusal::Cause;
use list_values::the_tree_record::{bit, field, kind, word};

fn is_main(k: u32) -> bool
    ensures { result ≡ is_main_kind k }
{
    (kind::FAILURE <= k) & (k <= kind::SKIPPED)
}

// The number that a new property or extra gets: a case's main stands behind them.
fn place_for(b: Builder, words: &[u32]) -> u32
    ensures { (text : List ℕ) → result ≡ place_for (record { builder = b; words = words.now; text = text }) }
{
    let last = last_of(b);
    if is_main(kind_at(words, last)) {
        return last;
    }
    b.records
}

// Whether the record at the front of the part has this key.
fn has_key(r: &[u32], text: &[u8], key: &[u8]) -> bool
    ensures { result ≡ same_bytes (text_at text.now r.now word.key) key.now }
{
    let own = part_of(text, field(r, word::KEY), field(r, word::KEY + 1));
    same(own, key)
}

// Of the records from number `from` to before number `to`, the first with this key.
fn key_place(records: &[u32], text: &[u8], key: &[u8], from: usize, to: usize) -> usize
    requires { to ≤ 65536 }
    ensures { result ≡ key_place text.now records.now key.now from (to - from) }
{
    for i in from..to {
        let at = least(i * 32, records.len());
        if has_key(&records[at..], text, key) {
            return i;
        }
    }
    from.max(to)
}

// Whether a record of kind k, a property or extra, is a suite's.
fn is_suites(k: u32) -> bool
    ensures { result ≡ is_suites k }
{
    (k == kind::SUITE_EXTRA) | (k == kind::SUITE_PROPERTY)
}

// The mark of the element that has records of kind k.
fn holder_of(b: Builder, k: u32) -> u32
    ensures { result ≡ holder_of k b }
{
    if is_suites(k) {
        return b.suite;
    }
    b.case
}

// Whether it is open.
fn is_held(b: Builder, records: &[u32], k: u32) -> bool
    ensures { result ≡ is_held k b records.now }
{
    if is_suites(k) {
        return is_of(b, records, b.suite, kind::SUITE);
    }
    is_of(b, records, b.case, kind::CASE)
}

// The place of the extra with this key (rule B7), or none before `place`; a property's is never there.
fn old_place(b: Builder, records: &[u32], text: &[u8], key: &[u8], k: u32, place: u32) -> usize
    requires { place ≤ 65536 }
    ensures { (t : List ℕ) → place_for (record { builder = b; words = records.now; text = t }) ≡ place
        → result ≡ old_place k key.now text.now (record { builder = b; words = records.now; text = t }) }
{
    if k < kind::SUITE_EXTRA {
        return place as usize;
    }
    let own = holder_of(b, k);
    key_place(records, text, key, (own as usize) + 1, place as usize)
}

// The value from y to before z, in record i.
fn put_value(records: &mut [u32], i: usize, y: u32, n: u32)
    requires { i ≤ 65536 }
    ensures { records.new ≡ on_record_of i (put_pair word.value y n) records.old }
{
    let at = least(i * 32, records.len());
    put_pair(&mut records[at..], word::VALUE, y, n);
}

// The key of n bytes from x on and the value of m bytes from y on, in record i.
fn put_both(records: &mut [u32], i: u32, x: u32, n: u32, y: u32, m: u32)
    ensures { records.new ≡ on_record_of i (λ r. put_text word.value bit.value y m (put_text word.key bit.key x n r)) records.old }
{
    let at = least((i as usize) * 32, records.len());
    let r = &mut records[at..];
    put_text(r, word::KEY, bit::KEY, x, n);
    put_text(r, word::VALUE, bit::VALUE, y, m);
}

// The record that was taken last gets its texts, and stands before the case's main.
fn put_pair_in(b: Builder, records: &mut [u32], place: u32, x: u32, y: u32, z: u32) -> Builder
    requires { (b.records ≤ 65536) × (b.records * 32 ≤ length records.old) × (place + 2 ≤ b.records + 1) × (x ≤ y) × (y ≤ z) }
    ensures { (text : List ℕ) → (record { builder = result; words = records.new; text = text }) ≡ put_pair_in place x y z (record { builder = b; words = records.old; text = text }) }
{
    let last = last_of(b);
    put_both(records, last, x, y - x, y, z - y);
    if last <= place {
        return b;
    }
    exchange(records, place as usize);
    Builder {
        main: place + 1,
        ..b
    }
}

// A record for a key that is new.
fn new_pair(
    b: Builder,
    records: &mut [u32],
    k: u32,
    place: u32,
    x: u32,
    y: u32,
) -> Result<Builder, Cause>
    requires { (place ≤ b.records) × (x ≤ y) × (y ≤ b.bytes) }
    ensures { (text : List ℕ)
        → draft_of result records.new text ≡ next (taking k (record { builder = b; words = records.old; text = text })) (λ g. accepted (put_pair_in place x y b.bytes g)) }
{
    let c = take_record(b, records, k)?;
    Ok(put_pair_in(c, records, place, x, y, b.bytes))
}

// Whether a property or extra of kind k may be added at `place`.
fn may_add(b: Builder, records: &[u32], k: u32, place: u32) -> bool
    ensures { result ≡ (is_held k b records.now && may_stand_behind k (kind_at records.now (place - 1))) }
{
    let before = place.saturating_sub(1);
    is_held(b, records, k) & may_stand_behind(k, kind_at(records, before))
}

// Both texts are stored: behind x the key, from y on the value. The key's record gets them, an old one or a new one.
fn put_kept(
    b: Builder,
    d: Builder,
    records: &mut [u32],
    text: &[u8],
    k: u32,
    y: u32,
) -> Result<Builder, Cause>
    requires { (is_record b records.old (last_of b) ≡ true) × (d.records ≡ b.records) × (b.bytes ≤ y) × (y ≤ d.bytes) × (y ≤ length text.now) }
    ensures { draft_of result records.new text.now ≡ putting_kept k b y (record { builder = d; words = records.old; text = text.now }) }
{
    let place = place_for(b, records);
    let x = b.bytes as usize;
    let e = y as usize;
    let i = old_place(b, records, text, &text[x..e], k, place);
    if i < (place as usize) {
        put_value(records, i, y, d.bytes - y);
        return Ok(d);
    }
    new_pair(d, records, k, place, b.bytes, y)
}

// The key is stored, from b's bytes to c's: the value behind it, then their record.
fn add_value(
    b: Builder,
    c: Builder,
    records: &mut [u32],
    text: &mut [u8],
    k: u32,
    value: &[u8],
) -> Result<Builder, Cause>
    requires { (is_record b records.old (last_of b) ≡ true) × (c.records ≡ b.records) × (b.bytes ≤ c.bytes) }
    ensures { draft_of result records.new text.new
        ≡ next (keeping false value.now (record { builder = c; words = records.old; text = text.old })) (putting_kept k b c.bytes) }
{
    let d = keep(c, text, value, false)?;
    put_kept(b, d, records, text, k, c.bytes)
}

// A property or extra, by its record's kind (rules B5 and B7).
pub fn add_pair(
    b: Builder,
    records: &mut [u32],
    text: &mut [u8],
    k: u32,
    key: &[u8],
    value: &[u8],
) -> Result<Builder, Cause>
    ensures { draft_of result records.new text.new ≡ add_pair k key.now value.now (record { builder = b; words = records.old; text = text.old }) }
{
    if !may_add(b, records, k, place_for(b, records)) {
        return Err(Cause::NotLayout);
    }
    let c = keep(b, text, key, false)?;
    add_value(b, c, records, text, k, value)
}
