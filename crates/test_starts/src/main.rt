// First and last starts of runs that standard input has a record a line: `report`, `suite`, `case`, `run` (a flaky failure) or `dead` (a
// case that was replaced), with a timestamp behind it or without. `tell` tells what the call answers for the records so far, all numbers
// of it, and begins anew.
#![tactic(auto)]

ghost use Rattle.std.specs.Prelude.{◌≤◌, length};

use program_input::read_input;
use program_input::the_list_input::front;
use starts::{Extent, starts};
use std::io;
use tree_values::put_moment;
use tree_values::the_area::{clear_words, first_at, least};
use tree_values::the_names::code_in;
use tree_values::the_refusal::Verdict;
use tree_values::the_timestamp::{Moment, timestamp_of};
use tree_values::the_tree_put::put_text;
use tree_values::the_tree_record::{bit, kind, put_field, word};

const DEAD_CASE: u32 = 19;

fn say(rt: &impl Print, bytes: &[u8]) -> io::Result<()> {
    rt.write_all(bytes)
}

fn say_number(rt: &impl Print, n: u64) -> io::Result<()> {
    print!(rt; " {n}")
}

fn say_clock(rt: &impl Print, m: Moment) -> io::Result<()> {
    say_number(rt, m.hour as u64)?;
    say_number(rt, m.minute as u64)?;
    say_number(rt, m.second as u64)?;
    say_number(rt, m.nanos as u64)
}

// As it is stored: its offset is minutes east of UTC, and 1439.
fn say_moment(rt: &impl Print, m: Moment) -> io::Result<()> {
    say_number(rt, m.year as u64)?;
    say_number(rt, m.month as u64)?;
    say_number(rt, m.day as u64)?;
    say_clock(rt, m)?;
    say_number(rt, m.offset as u64)
}

fn say_extent(rt: &impl Print, e: Extent) -> io::Result<()> {
    say_moment(rt, e.first)?;
    say(rt, b",")?;
    say_moment(rt, e.last)?;
    say(rt, b",")?;
    say_number(rt, e.seconds)?;
    say_number(rt, e.nanos as u64)?;
    say(rt, b"\n")
}

fn say_found(rt: &impl Print, e: Extent) -> io::Result<()> {
    if e.found {
        say(rt, b"found:")
    } else {
        say(rt, b"none:")
    }
}

// The names are empty.
fn tell(rt: &impl Print, records: &[u32]) -> io::Result<()> {
    let told = starts(records, b"");
    let verdict = told.verdict;
    match verdict {
        Verdict::Accepted => say_found(rt, told.starts)?,
        Verdict::Refused => say(rt, b"refused:")?,
    }
    say_extent(rt, told.starts)
}

fn kind_at(code: usize) -> u32 {
    match code {
        2 => kind::REPORT,
        3 => kind::SUITE,
        4 => kind::CASE,
        5 => kind::FLAKY_FAILURE,
        _ => DEAD_CASE,
    }
}

// s from i on; nothing where it is shorter.
fn behind(s: &[u8], i: usize) -> &[u8] {
    if i < s.len() {
        return &s[i..];
    }
    &s[..0]
}

fn put_stamp(r: &mut [u32], s: &[u8]) {
    if let Ok(m) = timestamp_of(s) {
        put_moment(r, m);
    }
}

fn put_record(r: &mut [u32], kind: u32, s: &[u8]) {
    put_field(r, word::KIND, kind);
    put_text(r, word::NAME, bit::NAME, 0, 0);
    put_stamp(r, s);
}

// One line, with n words of records before it: how many there are behind it.
fn turn(rt: &impl Print, records: &mut [u32], n: usize, line: &[u8]) -> io::Result<usize> {
    let end = first_at(line, b' ');
    let code = code_in(
        b"tellreportsuitecaserundead",
        b"\x04\x06\x05\x04\x03\x04",
        front(line, end),
    );
    if code == 1 {
        tell(rt, records)?;
        clear_words(records);
        return Ok(0);
    }
    let at = least(n, records.len());
    put_record(
        &mut records[at..],
        kind_at(code),
        behind(behind(line, end), 1),
    );
    Ok(at + 32)
}

fn run(rt: &impl Print, records: &mut [u32], s: &[u8]) -> io::Result<()> {
    let mut n = 0;
    let mut at = 0;
    // while: each step passes a whole line.
    while at < s.len() {
        let rest = &s[at..];
        let end = first_at(rest, b'\n');
        at += end + 1;
        n = turn(rt, records, n, front(rest, end))?;
    }
    Ok(())
}

fn main(rt: HostRuntime) -> io::Result<()> {
    let mut lines = [0u8; 16384];
    let mut records = [0u32; 2048];
    let given = read_input(&rt, &mut lines)?;
    run(&rt, &mut records, given)?;
    Ok(())
}
