// The records of some kinds that belong to an element, one behind the other: properties, extras or runs.
#![tactic(auto)]

ghost use Rattle.list_sums.specs.inside.Rows.{records_in};
ghost use Rattle.write_marks.specs.of_write_table.inside.Putting.{Wrote};
ghost use Rattle.write_marks.specs.inside.Kept.{kept};
ghost use Rattle.write_walk.specs.of_write_items.inside.Rows.{row_items, rows_items};

use list_sums::rows::stands_here;
use tree_record::{field, kind, word};
use write_entries::put_extra;
use write_marks::{Marks, is_open};
use write_run::put_run;
use write_status::put_property;
use write_walk::{ends, is_between};

// A property, an extra or a run.
fn put_row(
    events: &mut [u32],
    attributes: &mut [u32],
    bytes: &mut [u8],
    k: Marks,
    text: &[u8],
    r: &[u32],
    flaky: bool,
) -> Marks
    ensures { Wrote (kept k events.old attributes.old bytes.old)
        (row_items text.now flaky r.now) (kept result events.new attributes.new bytes.new) }
{
    let here = field(r, word::KIND);
    if (here == kind::SUITE_PROPERTY) | (here == kind::CASE_PROPERTY) {
        return put_property(events, attributes, bytes, k, text, r);
    }
    if (here == kind::SUITE_EXTRA) | (here == kind::CASE_EXTRA) {
        return put_extra(attributes, bytes, k, text, r);
    }
    put_run(events, attributes, bytes, k, text, r, flaky)
}

pub fn put_rows(
    events: &mut [u32],
    attributes: &mut [u32],
    bytes: &mut [u8],
    k: Marks,
    text: &[u8],
    words: &[u32],
    level: u32,
    low: u32,
    high: u32,
    flaky: bool,
) -> Marks
    ensures { Wrote (kept k events.old attributes.old bytes.old)
        (rows_items text.now flaky level low high (records_in words.now)) (kept result events.new attributes.new bytes.new) }
{
    let mut at = 0;
    let mut mark = k;
    while is_open(mark) & stands_here(&words[at..]) {
        let end = at + 32;
        let r = &words[at..end];
        let here = field(r, word::KIND);
        at = end;
        if ends(level, here) {
            return mark;
        }
        if is_between(low, here, high) {
            mark = put_row(events, attributes, bytes, mark, text, r, flaky);
        }
    }
    mark
}
