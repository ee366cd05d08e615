// Cases of writing that are run: areas that are short by one event, one attribute and one byte, 3 words, and the limit of events; and
// reports to order, one of them word by word. Each is told behind a few words that name it; all areas held other values before.
#![tactic(auto)]

mod tell;

ghost use Rattle.std.specs.Prelude.{◌≡◌, ◌≤◌, length};

use rehearsal::rehearse;
use rehearsal::the_writer::write;
use std::io;
use tell::{say, tell_words, tell_writing};
use tree_put::put_text;
use tree_put::the_tree_record::{bit, kind, put_bit, put_field, word};

fn try_write(
    rt: &impl Print,
    title: &[u8],
    records: &[u32],
    text: &[u8],
    events: &mut [u32],
    attributes: &mut [u32],
    bytes: &mut [u8],
) -> io::Result<()> {
    let writing = write(records, text, events, attributes, bytes);
    say(rt, title)?;
    tell_writing(rt, writing, events, attributes, bytes)
}

// A record with its first text, which is a name or a message.
fn put_named(r: &mut [u32], kind: u32, start: u32, n: u32) {
    put_field(r, word::KIND, kind);
    put_text(r, word::NAME, bit::NAME, start, n);
}

// A suite `s` with a case `c`, whose failure has the message `<`.
fn put_failure(records: &mut [u32])
    requires { length records.old ≡ 128 }
{
    put_field(records, word::KIND, kind::REPORT);
    put_named(&mut records[32..], kind::SUITE, 0, 1);
    put_named(&mut records[64..], kind::CASE, 1, 1);
    put_named(&mut records[96..], kind::FAILURE, 2, 1);
}

// In areas of e words, a words and b bytes.
fn try_areas(
    rt: &impl Print,
    title: &[u8],
    records: &[u32],
    e: usize,
    a: usize,
    b: usize,
) -> io::Result<()>
    requires { (e ≤ 64) × (a ≤ 64) × (b ≤ 256) }
{
    let mut events = [7u32; 64];
    let mut attributes = [7u32; 64];
    let mut bytes = [7u8; 256];
    try_write(
        rt,
        title,
        records,
        b"sc<",
        &mut events[..e],
        &mut attributes[..a],
        &mut bytes[..b],
    )
}

// The table has 10 events, 11 attributes and 176 bytes, with the message as `&lt;`.
fn try_failure(rt: &impl Print, records: &[u32]) -> io::Result<()> {
    try_areas(rt, b"longer areas: ", records, 64, 64, 256)?;
    try_areas(rt, b"just enough: ", records, 50, 55, 176)?;
    try_areas(rt, b"one event early: ", records, 45, 55, 176)?;
    try_areas(rt, b"a word of an event early: ", records, 49, 55, 176)?;
    try_areas(rt, b"one attribute early: ", records, 50, 50, 176)?;
    try_areas(rt, b"a word of an attribute early: ", records, 50, 54, 176)?;
    try_areas(rt, b"one byte early: ", records, 50, 55, 175)
}

// A run with description, stack trace and both outputs, which are empty: 13 events.
fn put_full_run(r: &mut [u32]) {
    put_field(r, word::KIND, kind::FLAKY_FAILURE);
    put_bit(r, bit::DESCRIPTION);
    put_bit(r, bit::STACK_TRACE);
    put_bit(r, bit::OUT);
    put_bit(r, bit::ERR);
}

fn put_full_runs(records: &mut [u32])
    requires { length records.old ≡ 161440 }
{
    let mut at = 96;
    while at < 161376 {
        put_full_run(&mut records[at..]);
        at += 32;
    }
}

// A suite with a case, both with empty names: 9 events, with those of the report.
fn put_case(records: &mut [u32])
    requires { length records.old ≡ 161440 }
{
    put_field(records, word::KIND, kind::REPORT);
    put_named(&mut records[32..], kind::SUITE, 0, 0);
    put_named(&mut records[64..], kind::CASE, 0, 0);
}

// A run without children, 2 events, whose record starts at the word `at`.
fn put_run(records: &mut [u32], at: usize)
    requires { at ≤ length records.old }
{
    put_field(&mut records[at..], word::KIND, kind::FLAKY_FAILURE);
}

// An empty text: 3 events where it is an output, one where it is the description of a run without children.
fn put_empty(records: &mut [u32], at: usize, k: u32)
    requires { at ≤ length records.old }
{
    put_bit(&mut records[at..], k);
}

// 65,536 events: 9 and 5,040 times 13, a run of 5 and a run of 2.
fn put_runs(records: &mut [u32])
    requires { length records.old ≡ 161440 }
{
    put_case(records);
    put_full_runs(records);
    put_run(records, 161376);
    put_empty(records, 161376, bit::OUT);
    put_run(records, 161408);
}

fn try_runs(
    rt: &impl Print,
    records: &mut [u32],
    events: &mut [u32],
    attributes: &mut [u32],
    bytes: &mut [u8],
) -> io::Result<()>
    requires { length records.old ≡ 161440 }
{
    put_runs(records);
    try_write(
        rt,
        b"65536 events: ",
        records,
        &[],
        events,
        attributes,
        bytes,
    )?;
    put_empty(records, 161408, bit::DESCRIPTION);
    try_write(
        rt,
        b"65537 events: ",
        records,
        &[],
        events,
        attributes,
        bytes,
    )
}

// The events' area has room for one more than the limit.
fn try_limit(rt: &impl Print) -> io::Result<()> {
    let mut records = [0u32; 161440];
    let mut events = [7u32; 327685];
    let mut attributes = [7u32; 64];
    let mut bytes = [7u8; 524288];
    try_runs(rt, &mut records, &mut events, &mut attributes, &mut bytes)
}

fn try_order(
    rt: &impl Print,
    title: &[u8],
    order: [u64; 5],
    events: &mut [u32],
    attributes: &mut [u32],
    bytes: &mut [u8],
) -> io::Result<()> {
    let writing = rehearse(
        order[0], order[1], order[2], order[3], order[4], events, attributes, bytes,
    );
    say(rt, title)?;
    tell_writing(rt, writing, events, attributes, bytes)
}

// One case of each kind, in areas that are just long enough: the whole table.
fn try_each(rt: &impl Print) -> io::Result<()> {
    let mut events = [7u32; 105];
    let mut attributes = [7u32; 75];
    let mut bytes = [7u8; 318];
    try_order(
        rt,
        b"one case of each kind: ",
        [5, 1, 1, 1, 1],
        &mut events,
        &mut attributes,
        &mut bytes,
    )?;
    tell_words(rt, &events)?;
    tell_words(rt, &attributes)?;
    say(rt, &bytes)?;
    say(rt, b"\n")
}

// Orders without a table, and such as have few cases.
fn try_orders(rt: &impl Print) -> io::Result<()> {
    let mut e = [7u32; 105];
    let mut a = [7u32; 75];
    let mut b = [7u8; 318];
    try_order(rt, b"no cases: ", [0, 0, 0, 0, 0], &mut e, &mut a, &mut b)?;
    try_order(
        rt,
        b"5 plain cases: ",
        [5, 0, 0, 0, 0],
        &mut e,
        &mut a,
        &mut b,
    )?;
    try_order(
        rt,
        b"4097 cases: ",
        [4097, 9, 9, 9, 4097],
        &mut e,
        &mut a,
        &mut b,
    )?;
    try_order(
        rt,
        b"one too many: ",
        [5, 1, 1, 1, 3],
        &mut e,
        &mut a,
        &mut b,
    )?;
    try_order(
        rt,
        b"a sum that wraps: ",
        [5, 18446744073709551615, 1, 0, 0],
        &mut e,
        &mut a,
        &mut b,
    )?;
    try_order(rt, b"6 cases: ", [6, 1, 1, 1, 1], &mut e, &mut a, &mut b)
}

// The most events, attributes and bytes that an order has, in areas of e words, a words and b bytes.
fn try_largest(rt: &impl Print, title: &[u8], e: usize, a: usize, b: usize) -> io::Result<()>
    requires { (e ≤ 81955) × (a ≤ 20530) × (b ≤ 212046) }
{
    let mut events = [7u32; 81955];
    let mut attributes = [7u32; 20530];
    let mut bytes = [7u8; 212046];
    try_order(
        rt,
        title,
        [4096, 0, 0, 0, 4096],
        &mut events[..e],
        &mut attributes[..a],
        &mut bytes[..b],
    )
}

fn main(rt: HostRuntime) -> io::Result<()> {
    let mut records = [0u32; 128];
    try_areas(&rt, b"3 words: ", &[kind::REPORT, 0, 0], 64, 64, 256)?;
    put_failure(&mut records);
    try_failure(&rt, &records)?;
    try_limit(&rt)?;
    try_each(&rt)?;
    try_orders(&rt)?;
    try_largest(&rt, b"4096 cases: ", 81955, 20530, 212046)?;
    try_largest(&rt, b"a word of an event early: ", 81954, 20530, 212046)?;
    try_largest(&rt, b"a word of an attribute early: ", 81955, 20529, 212046)?;
    try_largest(&rt, b"one byte early: ", 81955, 20530, 212045)?;
    Ok(())
}
