// Setters of a builder: for the report, the open suite, the open case, its main status element, and the last record. At a refusal both
// areas become zero.
#![tactic(auto)]

ghost use Rattle.std.specs.Prelude.{◌≡◌, cond, length};
ghost use Rattle.build_text.specs.of_build_draft.Draft.{draft_of, built_from, words_left_of, text_left};
ghost use Rattle.build_text.specs.of_build_draft.Calls.{set_text, set_output_lossy, set_timestamp, set_time, set_uuid, set_number, set_rerun_kind};

use build_fields::{bit_for, clock, has_text, identify, is_output, number, stamp, word_for};
use build_runs::turn_case;
use build_text::put_at;
use build_text::the_build_draft::{
    Builder, Built, Element, FlakyOrRerun, NumberField, TextField, kind_at, mark_of, settle,
};
use build_text::the_refusal::Cause;
use build_text::the_timestamp::Moment;
use build_text::the_uuids::Words;

// A text as it is, or an output lossily.
fn write_field(
    b: Builder,
    records: &mut [u32],
    text: &mut [u8],
    element: Element,
    field: TextField,
    s: &[u8],
    lossy: bool,
) -> Result<Builder, Cause>
    ensures { draft_of result records.new text.new ≡ cond lossy (set_output_lossy element field s.now (record {
      builder = b;
      words = records.old;
      text = text.old;
    })) (set_text element field s.now (record { builder = b; words = records.old; text = text.old })) }
{
    let i = mark_of(b, element);
    if !((is_output(field) | !lossy) & has_text(kind_at(records, i), field)) {
        return Err(Cause::NotLayout);
    }
    put_at(
        b,
        records,
        text,
        i,
        word_for(field),
        bit_for(field),
        s,
        lossy,
    )
}

// By rule B2; a text that was there stays as dead bytes.
pub fn set_text(
    b: Builder,
    records: &mut [u32],
    text: &mut [u8],
    element: Element,
    field: TextField,
    s: &[u8],
) -> Built
    ensures value { result ≡ built_from (set_text element field s.now (record { builder = b; words = records.old; text = text.old })) }
    ensures records_after { records.new ≡ words_left_of (length records.old) (set_text element field s.now (record { builder = b; words = records.old; text = text.old })) }
    ensures text_after { text.new ≡ text_left (length text.old) (set_text element field s.now (record { builder = b; words = records.old; text = text.old })) }
{
    let step = write_field(b, records, text, element, field, s, false);
    settle(step, records, text)
}

// An output from any bytes: what isn't UTF-8 becomes U+FFFD (rule B6).
pub fn set_output_lossy(
    b: Builder,
    records: &mut [u32],
    text: &mut [u8],
    element: Element,
    field: TextField,
    s: &[u8],
) -> Built
    ensures value { result ≡ built_from (set_output_lossy element field s.now (record { builder = b; words = records.old; text = text.old })) }
    ensures records_after { records.new
        ≡ words_left_of (length records.old) (set_output_lossy element field s.now (record { builder = b; words = records.old; text = text.old })) }
    ensures text_after { text.new ≡ text_left (length text.old) (set_output_lossy element field s.now (record { builder = b; words = records.old; text = text.old })) }
{
    let step = write_field(b, records, text, element, field, s, true);
    settle(step, records, text)
}

// By rule B10.
pub fn set_timestamp(
    b: Builder,
    records: &mut [u32],
    text: &mut [u8],
    element: Element,
    m: Moment,
) -> Built
    ensures value { result ≡ built_from (set_timestamp element m (record { builder = b; words = records.old; text = text.old })) }
    ensures records_after { records.new ≡ words_left_of (length records.old) (set_timestamp element m (record { builder = b; words = records.old; text = text.old })) }
    ensures text_after { text.new ≡ text_left (length text.old) (set_timestamp element m (record { builder = b; words = records.old; text = text.old })) }
{
    let step = stamp(b, records, mark_of(b, element), m);
    settle(step, records, text)
}

// By rule B10.
pub fn set_time(
    b: Builder,
    records: &mut [u32],
    text: &mut [u8],
    element: Element,
    seconds: u32,
    nanos: u32,
) -> Built
    ensures value { result ≡ built_from (set_time element seconds nanos (record { builder = b; words = records.old; text = text.old })) }
    ensures records_after { records.new ≡ words_left_of (length records.old) (set_time element seconds nanos (record { builder = b; words = records.old; text = text.old })) }
    ensures text_after { text.new ≡ text_left (length text.old) (set_time element seconds nanos (record { builder = b; words = records.old; text = text.old })) }
{
    let step = clock(b, records, mark_of(b, element), seconds, nanos);
    settle(step, records, text)
}

// The report's.
pub fn set_uuid(b: Builder, records: &mut [u32], text: &mut [u8], w: Words) -> Built
    ensures value { result ≡ built_from (set_uuid w (record { builder = b; words = records.old; text = text.old })) }
    ensures records_after { records.new ≡ words_left_of (length records.old) (set_uuid w (record { builder = b; words = records.old; text = text.old })) }
    ensures text_after { text.new ≡ text_left (length text.old) (set_uuid w (record { builder = b; words = records.old; text = text.old })) }
{
    let step = identify(b, records, w);
    settle(step, records, text)
}

// The open case's assertions, or the open suite's `disabled`.
pub fn set_number(
    b: Builder,
    records: &mut [u32],
    text: &mut [u8],
    field: NumberField,
    n: u64,
) -> Built
    ensures value { result ≡ built_from (set_number field n (record { builder = b; words = records.old; text = text.old })) }
    ensures records_after { records.new ≡ words_left_of (length records.old) (set_number field n (record { builder = b; words = records.old; text = text.old })) }
    ensures text_after { text.new ≡ text_left (length text.old) (set_number field n (record { builder = b; words = records.old; text = text.old })) }
{
    let step = number(b, records, field, n);
    settle(step, records, text)
}

// The kind of the runs of the open case's failure or error, also while there are none.
pub fn set_rerun_kind(
    b: Builder,
    records: &mut [u32],
    text: &mut [u8],
    family: FlakyOrRerun,
) -> Built
    ensures value { result ≡ built_from (set_rerun_kind family (record { builder = b; words = records.old; text = text.old })) }
    ensures records_after { records.new ≡ words_left_of (length records.old) (set_rerun_kind family (record { builder = b; words = records.old; text = text.old })) }
    ensures text_after { text.new ≡ text_left (length text.old) (set_rerun_kind family (record { builder = b; words = records.old; text = text.old })) }
{
    let step = turn_case(b, records, family);
    settle(step, records, text)
}
