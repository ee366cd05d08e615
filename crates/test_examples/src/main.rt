// Examples that are run: the limit of events, offsets of a timestamp, and the refusals 1 and 11 to 17.
// Each is told as crate `tell` does, behind a few words that name it.
#![tactic(auto)]

ghost use Rattle.std.specs.Prelude.{◌≡◌, ◌≤◌, length};

use std::io;
use test_tell::{tell_listing, tell_refusal, tell_table, write};
use tree_counts::the_refusal::Verdict;
use tree_counts::{Counts, Outcome};

// Start `testsuites`, events of kind Other, End `testsuites`; before it one more Other.
fn fill_events(events: &mut [u32])
    requires { length events.old ≡ 327685 }
{
    let mut i = 0;
    while i < 65537 {
        events[i * 5] = 6;
        i += 1;
    }
    events[5] = 0;
    events[7] = 10;
    events[327680] = 2;
    events[327682] = 10;
}

fn try_events(rt: &impl Print, title: &[u8], events: &[u32]) -> io::Result<()> {
    let mut records = [0u32; 64];
    let mut out = [0u8; 64];
    write(rt, title)?;
    tell_table(
        rt,
        events,
        &[],
        b"testsuites",
        &mut records,
        &mut [],
        &mut [],
        &mut out,
    )
}

fn try_filled(rt: &impl Print, events: &mut [u32]) -> io::Result<()>
    requires { length events.old ≡ 327685 }
{
    fill_events(events);
    try_events(rt, b"65536 events: ", &events[5..])?;
    try_events(rt, b"65537 events: ", events)
}

fn try_limit(rt: &impl Print) -> io::Result<()> {
    let mut events = [0u32; 327685];
    try_filled(rt, &mut events)
}

// One Empty `testsuites` with one attribute; the key has n bytes.
fn try_attribute(
    rt: &impl Print,
    title: &[u8],
    n: u32,
    len: u32,
    source: &[u8],
    records: &mut [u32],
    text: &mut [u8],
) -> io::Result<()>
    requires { n ≤ 9 }
{
    let events = [1u32, 0, 10, 0, 1];
    let attributes = [0u32, 10, n, 10 + n, len];
    let mut out = [0u8; 64];
    write(rt, title)?;
    tell_table(
        rt,
        &events,
        &attributes,
        source,
        records,
        text,
        &mut [],
        &mut out,
    )
}

fn try_values(rt: &impl Print) -> io::Result<()> {
    let mut records = [0u32; 64];
    let mut text = [0u8; 1];
    try_attribute(
        rt,
        b"offset +23:59: ",
        9,
        25,
        b"testsuitestimestamp2023-01-01T00:00:00+23:59",
        &mut records,
        &mut text,
    )?;
    try_attribute(
        rt,
        b"offset +24:00: ",
        9,
        25,
        b"testsuitestimestamp2023-01-01T00:00:00+24:00",
        &mut records,
        &mut text,
    )?;
    try_attribute(
        rt,
        b"0 words lent: ",
        4,
        1,
        b"testsuitesnamea",
        &mut [],
        &mut text,
    )?;
    try_attribute(
        rt,
        b"name `ab`, 1 byte: ",
        4,
        2,
        b"testsuitesnameab",
        &mut records,
        &mut text,
    )
}

// One event of that kind.
fn try_kind(rt: &impl Print, title: &[u8], kind: u32) -> io::Result<()> {
    let events = [kind, 0, 0, 0, 0];
    try_events(rt, title, &events)
}

// Start `testsuites`, Start `testsuite`, Start `system-out`, a Text.
fn output_events() -> [u32; 20] {
    [
        0u32, 0, 10, 0, 0, 0, 10, 9, 0, 1, 0, 24, 10, 0, 0, 3, 34, 2, 0, 0,
    ]
}

// A suite with the output `ab`, which is refused before it is closed.
fn try_output(rt: &impl Print) -> io::Result<()> {
    let events = output_events();
    let attributes = [0u32, 19, 4, 23, 1];
    let mut records = [0u32; 64];
    let mut text = [0u8; 64];
    let mut scratch = [0u8; 1];
    let mut out = [0u8; 64];
    write(rt, b"output `ab`, 1 byte: ")?;
    tell_table(
        rt,
        &events,
        &attributes,
        b"testsuitestestsuitenamessystem-outab",
        &mut records,
        &mut text,
        &mut scratch,
        &mut out,
    )
}

fn try_listing(rt: &impl Print) -> io::Result<()> {
    let events = [1u32, 0, 10, 0, 0];
    let mut records = [0u32; 32];
    write(rt, b"3 words: ")?;
    tell_listing(rt, &records[..3], &[], &mut [])?;
    write(rt, b"0 bytes: ")?;
    tell_table(
        rt,
        &events,
        &[],
        b"testsuites",
        &mut records,
        &mut [],
        &mut [],
        &mut [],
    )
}

fn try_count(rt: &impl Print, title: &[u8], tests: u64) -> io::Result<()> {
    let counts = Counts {
        tests,
        failures: 0,
        errors: 0,
        skipped: 0,
        presence: false,
        disabled: 0,
    };
    let counted = counts.add_test_case(Outcome::Success);
    let verdict = counted.verdict;
    let after = counted.counts;
    write(rt, title)?;
    match verdict {
        Verdict::Accepted => println!(rt; "{}", after.tests),
        Verdict::Refused => tell_refusal(rt, counted.refusal),
    }
}

fn main(rt: HostRuntime) -> io::Result<()> {
    try_limit(&rt)?;
    try_values(&rt)?;
    try_kind(&rt, b"kind 8: ", 8)?;
    try_kind(&rt, b"kind 10: ", 10)?;
    try_output(&rt)?;
    try_listing(&rt)?;
    try_count(
        &rt,
        b"18446744073709551614 tests, a case: ",
        18446744073709551614,
    )?;
    try_count(
        &rt,
        b"18446744073709551615 tests, a case: ",
        18446744073709551615,
    )?;
    Ok(())
}
