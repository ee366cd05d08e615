// The one suite of a report to order and the report around it.
#![tactic(auto)]

ghost use Rattle.std.specs.Prelude.{List, ◌∷◌, [], ◌++◌, ℕ, ◌-◌, ◌≤◌, replicate};
ghost use Rattle.write_document.specs.of_names.Keys as key;
ghost use Rattle.write_document.specs.of_write_report.Written.{serialize_test_suite, written};
ghost use Rattle.write_document.specs.of_write_table.Laid.{pair, items_of};
ghost use Rattle.write_document.specs.of_write_table.inside.Putting.{Wrote};
ghost use Rattle.write_document.specs.of_write_marks.inside.Kept.{kept};
ghost use Rattle.write_document.specs.of_write_items.inside.Values.{key_name};
ghost use Rattle.order_case.specs.of_order_report.Rehearsal.{stated, kinds_in, rehearsal_name, suite_of, rehearsal};
ghost use Rattle.order_case.specs.of_order_report.inside.Items.{cases_items, count_items, common_items, suite_tag_items, head_items};

use order_case::put_case;
pub use order_case::the_order_report;
use order_case::the_order_report::{Kind, Order};
use write_document::put_tail;
use write_document::the_names::{key, tag};
use write_document::the_table::kind::{EMPTY, END, START};
use write_document::the_write_entries::{put_declaration, put_tag};
use write_document::the_write_marks::{Marks, store_attribute};
use write_document::the_write_tags::put_quote;
use write_document::the_write_values::put_key;

// Cases of one kind, numbered from `from` up to `to`.
fn put_cases(
    events: &mut [u32],
    attributes: &mut [u32],
    bytes: &mut [u8],
    k: Marks,
    kind: Kind,
    from: u64,
    to: u64,
) -> Marks
    ensures { Wrote (kept k events.old attributes.old bytes.old)
        (cases_items from (replicate (to - from) kind)) (kept result events.new attributes.new bytes.new) }
{
    let mut mark = k;
    let mut i = from;
    while i < to {
        mark = put_case(events, attributes, bytes, mark, i, kind);
        i += 1;
    }
    mark
}

// The kinds, one behind the other (rule O4).
fn put_kinds(
    events: &mut [u32],
    attributes: &mut [u32],
    bytes: &mut [u8],
    k: Marks,
    o: Order,
) -> Marks
    requires { stated o ≤ o.cases }
    ensures { Wrote (kept k events.old attributes.old bytes.old)
        (cases_items 0 (kinds_in o)) (kept result events.new attributes.new bytes.new) }
{
    let a = o.failures + o.errors;
    let b = a + o.skipped;
    let c = b + o.flaky;
    let f = put_cases(events, attributes, bytes, k, Kind::Failure, 0, o.failures);
    let e = put_cases(events, attributes, bytes, f, Kind::Error, o.failures, a);
    let s = put_cases(events, attributes, bytes, e, Kind::Skipped, a, b);
    let r = put_cases(events, attributes, bytes, s, Kind::Flaky, b, c);
    put_cases(events, attributes, bytes, r, Kind::Plain, c, o.cases)
}

fn put_name(attributes: &mut [u32], bytes: &mut [u8], k: Marks) -> Marks
    ensures { (ev : List ℕ) → Wrote (kept k ev attributes.old bytes.old)
        (pair (key_name key.name) rehearsal_name ∷ []) (kept result ev attributes.new bytes.new) }
{
    let from = k.bytes;
    let middle = put_key(bytes, from, k.form, key::NAME as u8);
    let value = write_document::the_list_text::put(bytes, middle, b"rehearsal");
    let to = put_quote(bytes, value, k.form);
    store_attribute(attributes, k, middle, to)
}

// A count, under the key with that code.
fn put_count(attributes: &mut [u32], bytes: &mut [u8], k: Marks, code: u8, n: u64) -> Marks
    ensures { (ev : List ℕ) → Wrote (kept k ev attributes.old bytes.old)
        (count_items code n) (kept result ev attributes.new bytes.new) }
{
    let from = k.bytes;
    let middle = put_key(bytes, from, k.form, code);
    let value = write_document::the_list_text::put_decimal(bytes, middle, n);
    let to = put_quote(bytes, value, k.form);
    store_attribute(attributes, k, middle, to)
}

// What report and suite both begin with: name, tests and skipped (rule O3).
fn put_common(attributes: &mut [u32], bytes: &mut [u8], k: Marks, o: Order) -> Marks
    ensures { (ev : List ℕ) → Wrote (kept k ev attributes.old bytes.old)
        (common_items o) (kept result ev attributes.new bytes.new) }
{
    let named = put_name(attributes, bytes, k);
    let tests = put_count(attributes, bytes, named, key::TESTS as u8, o.cases);
    put_count(attributes, bytes, tests, key::SKIPPED as u8, o.skipped)
}

// The declaration, and the report's tag: failures before errors (rule W2).
fn put_head(
    events: &mut [u32],
    attributes: &mut [u32],
    bytes: &mut [u8],
    k: Marks,
    o: Order,
) -> Marks
    ensures { Wrote (kept k events.old attributes.old bytes.old)
        (head_items o) (kept result events.new attributes.new bytes.new) }
{
    let declared = put_declaration(events, bytes, k);
    let opened = put_tag(events, bytes, declared, START, tag::TESTSUITES as u8, 5);
    let common = put_common(attributes, bytes, opened, o);
    let failures = put_count(attributes, bytes, common, key::FAILURES as u8, o.failures);
    put_count(attributes, bytes, failures, key::ERRORS as u8, o.errors)
}

// The suite's tag: errors before failures (rule W2).
fn put_suite_tag(
    events: &mut [u32],
    attributes: &mut [u32],
    bytes: &mut [u8],
    k: Marks,
    kind: u32,
    o: Order,
) -> Marks
    ensures { Wrote (kept k events.old attributes.old bytes.old)
        (suite_tag_items kind o) (kept result events.new attributes.new bytes.new) }
{
    let opened = put_tag(events, bytes, k, kind, tag::TESTSUITE as u8, 5);
    let common = put_common(attributes, bytes, opened, o);
    let errors = put_count(attributes, bytes, common, key::ERRORS as u8, o.errors);
    put_count(attributes, bytes, errors, key::FAILURES as u8, o.failures)
}

// Empty without cases (rule O6).
fn put_suite(
    events: &mut [u32],
    attributes: &mut [u32],
    bytes: &mut [u8],
    k: Marks,
    o: Order,
) -> Marks
    requires { stated o ≤ o.cases }
    ensures { Wrote (kept k events.old attributes.old bytes.old)
        (items_of (serialize_test_suite (suite_of o))) (kept result events.new attributes.new bytes.new) }
{
    if o.cases == 0 {
        return put_suite_tag(events, attributes, bytes, k, EMPTY, o);
    }
    let opened = put_suite_tag(events, attributes, bytes, k, START, o);
    let inner = put_kinds(events, attributes, bytes, opened, o);
    put_tag(events, bytes, inner, END, tag::TESTSUITE as u8, 0)
}

// The events of the report that an order gives (rules O3 and W1).
pub fn put_order(
    events: &mut [u32],
    attributes: &mut [u32],
    bytes: &mut [u8],
    k: Marks,
    o: Order,
) -> Marks
    requires { stated o ≤ o.cases }
    ensures { Wrote (kept k events.old attributes.old bytes.old)
        (items_of (written (rehearsal o))) (kept result events.new attributes.new bytes.new) }
{
    let head = put_head(events, attributes, bytes, k, o);
    let suite = put_suite(events, attributes, bytes, head, o);
    put_tail(events, bytes, suite)
}
