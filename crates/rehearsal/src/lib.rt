// A report to order: the events of a report with the numbers that are stated, into three areas that the caller lends.
#![tactic(auto)]

ghost use Rattle.std.specs.Prelude.{◌≡◌, ◌≤◌, length};
ghost use Rattle.order_suite.specs.of_order_report.Rehearsal.{order_of, stated, rehearsal};
ghost use Rattle.order_suite.specs.of_order_report.Answer.{ordered, events_ordered, attributes_ordered, bytes_ordered};
ghost use Rattle.writer.specs.of_write_report.Written.{written};
ghost use Rattle.writer.specs.of_write_table.Laid.{items_of};
ghost use Rattle.writer.specs.of_write_table.inside.Putting.{Wrote};
ghost use Rattle.writer.specs.of_write_marks.inside.Kept.{empty, kept};
ghost use Rattle.writer.specs.Answer.{writing_from};
ghost use Rattle.writer.specs.of_area.Area.{zeros};
ghost use Rattle.writer.specs.of_refusal.Refusal.{refused, late};
ghost use Rattle.writer.specs.of_refusal.declared.Cause.TheVariants as cause;

use order_suite::put_order;
use order_suite::the_order_report::{Order, exceeds_cases};
pub use writer as the_writer;
use writer::the_clearing::clear_table;
use writer::the_refusal::{Cause, Verdict, no_refusal};
use writer::the_write_form::form;
use writer::the_write_marks::Marks;
use writer::{Writing, refuse};

// By rule O1.
pub const MOST_CASES: u64 = 4096;

// Puts the events of the order's report into areas that hold nothing.
fn put_rehearsal(events: &mut [u32], attributes: &mut [u32], bytes: &mut [u8], o: Order) -> Marks
    requires { stated o ≤ o.cases }
    ensures { Wrote (kept empty events.old attributes.old bytes.old)
        (items_of (written (rehearsal o))) (kept result events.new attributes.new bytes.new) }
{
    let start = Marks {
        events: 0,
        attributes: 0,
        form: form::TABLE,
        level: 0,
        bytes: Some(0),
    };
    put_order(events, attributes, bytes, start, o)
}

// 16: what was put doesn't stay (rule F13).
fn refuse_full(events: &mut [u32], attributes: &mut [u32], bytes: &mut [u8]) -> Writing
    ensures value { result ≡ writing_from (refused (late cause.OutputFull)) }
    ensures events_after { events.new ≡ zeros (length events.old) }
    ensures attributes_after { attributes.new ≡ zeros (length attributes.old) }
    ensures bytes_after { bytes.new ≡ zeros (length bytes.old) }
{
    writer::the_clearing::clear_table(events, attributes, bytes);
    refuse(Cause::OutputFull)
}

// Puts the table at the front of the three areas, and zeros behind it; at a refusal all of them becomes zero (rules O1, O2 and O7). What is read from
// it is the report, with the numbers that were stated (rule O8).
pub fn rehearse(
    cases: u64,
    failures: u64,
    errors: u64,
    skipped: u64,
    flaky: u64,
    events: &mut [u32],
    attributes: &mut [u32],
    bytes: &mut [u8],
) -> Writing
    ensures value { result ≡ writing_from (ordered (order_of cases failures errors skipped flaky)
        (length events.old) (length attributes.old) (length bytes.old)) }
    ensures events_after { events.new ≡ events_ordered (order_of cases failures errors skipped flaky)
        (length events.old) (length attributes.old) (length bytes.old) }
    ensures attributes_after { attributes.new ≡ attributes_ordered (order_of cases failures errors skipped flaky)
        (length events.old) (length attributes.old) (length bytes.old) }
    ensures bytes_after { bytes.new ≡ bytes_ordered (order_of cases failures errors skipped flaky)
        (length events.old) (length attributes.old) (length bytes.old) }
{
    let o = Order {
        cases,
        failures,
        errors,
        skipped,
        flaky,
    };
    clear_table(events, attributes, bytes);
    let many = MOST_CASES < cases;
    let more = exceeds_cases(o);
    if many {
        return refuse(Cause::TooManyCases);
    }
    if more {
        return refuse(Cause::NoSuchReport);
    }
    let k = put_rehearsal(events, attributes, bytes, o);
    let mark = k.bytes;
    let Some(n) = mark else {
        return refuse_full(events, attributes, bytes);
    };
    let m = k.events as usize;
    let a = k.attributes as usize;
    Writing {
        verdict: Verdict::Accepted,
        events: m,
        attributes: a,
        bytes: n,
        refusal: no_refusal(),
    }
}
