// Pairs of trees that are merged: the words of the new report that a listing doesn't show, which are its presence bits, hour, offset and
// time, then its listing; or why it is refused, as number, path length, event and attribute. Result areas held other values before.
#![tactic(auto)]

ghost use Rattle.std.specs.Prelude.{◌≡◌, length};

use list_input::front;
use lister::list;
use lister::the_list_values::part_of;
use lister::the_refusal::{Refusal, Verdict, number_of};
use lister::the_timestamp::Moment;
use lister::the_tree_record::{bit, field, kind, put_field, word};
use merger::the_tree_put::{put_count, put_text};
use merger::the_tree_values::{put_moment, put_time};
use merger::{Merging, merge};
use std::io;

const DEAD_CASE: u32 = 19;

fn say(rt: &impl Print, bytes: &[u8]) -> io::Result<()> {
    rt.write_all(bytes)
}

fn say_number(rt: &impl Print, n: u32) -> io::Result<()> {
    print!(rt; " {n}")
}

fn tell_head(rt: &impl Print, r: &[u32]) -> io::Result<()> {
    say_number(rt, field(r, word::BITS))?;
    say_number(rt, field(r, word::HOUR))?;
    say_number(rt, field(r, word::OFFSET))?;
    say_number(rt, field(r, word::SECONDS))?;
    say_number(rt, field(r, word::TIME_NANOS))?;
    say(rt, b"\n")
}

fn tell_listing(rt: &impl Print, records: &[u32], text: &[u8]) -> io::Result<()> {
    let mut out = [0u8; 1024];
    let listing = list(records, text, &mut out);
    say(rt, front(&out, listing.length))
}

fn tell_refusal(rt: &impl Print, refusal: Refusal) -> io::Result<()> {
    let cause = refusal.cause;
    let path = refusal.path;
    say(rt, b" refused")?;
    say_number(rt, number_of(cause))?;
    print!(rt; " {}", path.len)?;
    say_number(rt, refusal.event)?;
    say_number(rt, refusal.attribute)?;
    say(rt, b"\n")
}

fn tell(rt: &impl Print, merging: Merging, records: &[u32], text: &[u8]) -> io::Result<()> {
    let verdict = merging.verdict;
    match verdict {
        Verdict::Accepted => {
            tell_head(rt, records)?;
            tell_listing(rt, records, text)
        }
        Verdict::Refused => tell_refusal(rt, merging.refusal),
    }
}

fn try_merge(
    rt: &impl Print,
    title: &[u8],
    first: &[u32],
    first_text: &[u8],
    second: &[u32],
    second_text: &[u8],
    records: &mut [u32],
    text: &mut [u8],
) -> io::Result<()> {
    let merging = merge(first, first_text, second, second_text, records, text);
    say(rt, title)?;
    tell(rt, merging, records, text)
}

fn try_wide(
    rt: &impl Print,
    title: &[u8],
    first: &[u32],
    first_text: &[u8],
    second: &[u32],
    second_text: &[u8],
) -> io::Result<()> {
    let mut records = [7u32; 200];
    let mut text = [7u8; 40];
    try_merge(
        rt,
        title,
        first,
        first_text,
        second,
        second_text,
        &mut records,
        &mut text,
    )
}

fn put_named(r: &mut [u32], kind: u32, start: u32, n: u32) {
    put_field(r, word::KIND, kind);
    put_text(r, word::NAME, bit::NAME, start, n);
}

// 1 June 2024.
fn put_hour(r: &mut [u32], hour: u8, offset: u16) {
    put_moment(
        r,
        Moment {
            year: 2024,
            month: 6,
            day: 1,
            hour,
            minute: 0,
            second: 0,
            nanos: 0,
            offset,
        },
    );
}

// A report whose name has n bytes, a case that was replaced, a suite and its case, whose name is the first byte of the suite's.
fn put_half(records: &mut [u32], n: u32, size: u32)
    requires { length records.old ≡ 128 }
{
    put_named(records, kind::REPORT, 0, n);
    put_count(records, word::TESTS, 1);
    put_named(&mut records[32..], DEAD_CASE, 0, n);
    put_named(&mut records[64..], kind::SUITE, n, size);
    put_named(&mut records[96..], kind::CASE, n, 1);
}

// The merged tree has 5 records and 15 bytes.
fn try_rooms(rt: &impl Print, first: &[u32], second: &[u32]) -> io::Result<()> {
    let mut records = [7u32; 160];
    let mut early = [7u32; 159];
    let mut text = [7u8; 15];
    let mut short = [7u8; 14];
    try_merge(
        rt,
        b"just enough:",
        first,
        b"nightlab",
        second,
        b"latefield",
        &mut records,
        &mut text,
    )?;
    try_merge(
        rt,
        b"a word early:",
        first,
        b"nightlab",
        second,
        b"latefield",
        &mut early,
        &mut text,
    )?;
    try_merge(
        rt,
        b"a byte early:",
        first,
        b"nightlab",
        second,
        b"latefield",
        &mut records,
        &mut short,
    )?;
    try_merge(
        rt,
        b"both early:",
        first,
        b"nightlab",
        second,
        b"latefield",
        &mut early,
        &mut short,
    )
}

// A suite with a hostname, the fourth record of five, with 19 bytes; the listing doesn't show it.
fn try_host(rt: &impl Print, first: &mut [u32], second: &[u32]) -> io::Result<()>
    requires { length first.old ≡ 128 }
{
    let mut records = [7u32; 160];
    let mut text = [7u8; 19];
    put_text(&mut first[64..], word::HOSTNAME, bit::HOSTNAME, 0, 5);
    try_merge(
        rt,
        b"a hostname:",
        second,
        b"latefield",
        first,
        b"nightlab",
        &mut records,
        &mut text,
    )?;
    let host = part_of(&text, field(&records, 124), field(&records, 125));
    say(rt, host)?;
    say(rt, b"\n")
}

// 10:00+01:00 and 09:00Z are one instant.
fn try_hours(rt: &impl Print, first: &mut [u32], second: &mut [u32]) -> io::Result<()> {
    try_wide(
        rt,
        b"one timestamp:",
        first,
        b"nightlab",
        second,
        b"latefield",
    )?;
    put_hour(second, 9, 1439);
    try_wide(
        rt,
        b"one instant:",
        first,
        b"nightlab",
        second,
        b"latefield",
    )?;
    try_wide(
        rt,
        b"the other way round:",
        second,
        b"latefield",
        first,
        b"nightlab",
    )?;
    put_hour(second, 9, 1440);
    try_wide(
        rt,
        b"a minute earlier:",
        first,
        b"nightlab",
        second,
        b"latefield",
    )
}

// A time of one alone, then of both.
fn try_times(rt: &impl Print, first: &mut [u32], second: &mut [u32]) -> io::Result<()> {
    put_time(first, 1, 600000000);
    try_wide(rt, b"one time:", second, b"latefield", first, b"nightlab")?;
    put_time(second, 2, 700000000);
    try_wide(rt, b"two times:", first, b"nightlab", second, b"latefield")
}

// Up to the limit of a time.
fn try_longest(rt: &impl Print, first: &mut [u32], second: &mut [u32]) -> io::Result<()> {
    put_time(first, 8388607, 999999999);
    put_time(second, 0, 0);
    try_wide(
        rt,
        b"the longest:",
        first,
        b"nightlab",
        second,
        b"latefield",
    )
}

// Beyond it, and beyond the limit of a count.
fn try_limits(rt: &impl Print, first: &mut [u32], second: &mut [u32]) -> io::Result<()> {
    put_time(second, 0, 1);
    try_wide(rt, b"too long:", first, b"nightlab", second, b"latefield")?;
    put_count(first, word::TESTS, 18446744073709551615);
    try_wide(rt, b"too many:", first, b"nightlab", second, b"latefield")
}

// Reports without suites and names, and areas without a report.
fn try_bare(rt: &impl Print, first: &[u32]) -> io::Result<()> {
    let mut bare = [0u32; 32];
    put_field(&mut bare, word::KIND, kind::REPORT);
    try_wide(rt, b"nothing:", &bare, b"", &bare, b"")?;
    try_wide(rt, b"no name:", &bare, b"", first, b"nightlab")?;
    try_wide(rt, b"no second:", first, b"nightlab", &[], b"")?;
    try_wide(rt, b"no first:", &[], b"", first, b"nightlab")
}

fn try_timed(rt: &impl Print, first: &mut [u32], second: &mut [u32]) -> io::Result<()> {
    put_hour(first, 10, 1499);
    try_hours(rt, first, second)?;
    try_times(rt, first, second)?;
    try_longest(rt, first, second)?;
    try_limits(rt, first, second)
}

fn try_all(rt: &impl Print, first: &mut [u32], second: &mut [u32]) -> io::Result<()>
    requires { (length first.old ≡ 128) × (length second.old ≡ 128) }
{
    put_half(first, 5, 3);
    put_half(second, 4, 5);
    try_rooms(rt, first, second)?;
    try_host(rt, first, second)?;
    try_bare(rt, first)?;
    try_timed(rt, first, second)
}

fn main(rt: HostRuntime) -> io::Result<()> {
    let mut first = [0u32; 128];
    let mut second = [0u32; 128];
    try_all(&rt, &mut first, &mut second)?;
    Ok(())
}
