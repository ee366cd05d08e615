// Texts that go into a draft: filtered, stored behind the texts already there, and put into a record.
#![tactic(auto)]

ghost use Rattle.std.specs.Prelude.{◌≡◌, List, false, not, ◌||◌, ℕ, length};
ghost use Rattle.build_draft.specs.of_area.Area.{stored_answer, placing, laid};
ghost use Rattle.build_draft.specs.of_utf8.Utf8.{utf8};
ghost use Rattle.build_draft.specs.of_refusal.declared.Cause.TheVariants as cause;
ghost use Rattle.build_draft.specs.of_tree_put.Put.{put_text};
ghost use Rattle.build_draft.specs.Draft.{draft_of, on_record_of, next};
ghost use Rattle.build_draft.specs.Parts.{text_for, keeping, putting, naming};

pub use build_draft as the_build_draft;
use build_draft::the_area::{least, limit};
use build_draft::the_refusal::Cause;
use build_draft::the_text_filter::store;
use build_draft::the_text_lossy::store_lossy;
use build_draft::the_tree_put::put_text;
use build_draft::the_tree_record::{bit, word};
use build_draft::the_utf8::is_utf8;
pub use build_draft::{the_refusal, the_timestamp, the_uuids};
use build_draft::{Builder, is_record, last_of};

fn store_text(out: &mut [u8], s: &[u8], lossy: bool) -> Option<usize>
    ensures result_value { stored_answer cause.TextFull result ≡ placing cause.TextFull (length out.old) (text_for lossy s.now) }
    ensures out_after { out.new ≡ laid out.old (text_for lossy s.now) }
{
    if lossy {
        store_lossy(out, s)
    } else {
        store(out, s)
    }
}

// A text that goes in as it is must be UTF-8.
fn is_refused(s: &[u8], lossy: bool) -> bool
    ensures { result ≡ not (lossy || utf8 s.now) }
{
    !lossy && !is_utf8(s)
}

// Stores a text behind the texts already there (rule B6).
pub fn keep(b: Builder, text: &mut [u8], s: &[u8], lossy: bool) -> Result<Builder, Cause>
    ensures { (words : List ℕ) → draft_of result words text.new ≡ keeping lossy s.now (record { builder = b; words = words; text = text.old }) }
{
    if is_refused(s, lossy) {
        return Err(Cause::NotUtf8);
    }
    let limit = least(text.len(), limit::BYTES);
    let fill = b.bytes as usize;
    if limit < fill {
        return Err(Cause::TextFull);
    }
    let n = store_text(&mut text[fill..limit], s, lossy).ok_or(Cause::TextFull)?;
    Ok(Builder {
        bytes: (fill + n) as u32,
        ..b
    })
}

// The text of n bytes from `start` on, in record i.
fn put_into(records: &mut [u32], i: u32, o: usize, k: u32, start: u32, n: u32)
    ensures { records.new ≡ on_record_of i (put_text o k start n) records.old }
{
    let at = (i as usize) * 32;
    if records.len() < at {
        return;
    }
    put_text(&mut records[at..], o, k, start, n);
}

// A text of record i, at word o with bit k.
pub fn put_at(
    b: Builder,
    records: &mut [u32],
    text: &mut [u8],
    i: u32,
    o: usize,
    k: u32,
    s: &[u8],
    lossy: bool,
) -> Result<Builder, Cause>
    ensures { draft_of result records.new text.new ≡ putting i o k lossy s.now (record { builder = b; words = records.old; text = text.old }) }
{
    if !is_record(b, records, i) {
        return Err(Cause::NotLayout);
    }
    let c = keep(b, text, s, lossy)?;
    put_into(records, i, o, k, b.bytes, c.bytes - b.bytes);
    Ok(c)
}

// The name of the record that was taken last.
#[tactic(auto, unfolding(build_draft::specs::Parts::naming))]
pub fn put_name(
    step: Result<Builder, Cause>,
    records: &mut [u32],
    text: &mut [u8],
    name: &[u8],
) -> Result<Builder, Cause>
    ensures { draft_of result records.new text.new ≡ next (draft_of step records.old text.old) (naming name.now) }
{
    let b = step?;
    put_at(
        b,
        records,
        text,
        last_of(b),
        word::NAME,
        bit::NAME,
        name,
        false,
    )
}
