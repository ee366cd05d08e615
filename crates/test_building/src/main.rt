// Reports built from nothing by the calls that standard input has, one a line. What is refused is told with its number and its line;
// `areas 0020 0253` lends areas of so many records and bytes from then on, `count` tells how many of them are used, and `show` tells
// the listing and the table that the report is written as.
#![tactic(auto)]

mod calls;
mod tell;

ghost use Rattle.std.specs.Prelude.{◌≤◌};

use calls::{behind, perform};
use lister::list;
use port_values::the_build_draft::{Builder, no_builder};
use program_input::read_input;
use program_input::the_list_input::front;
use std::io;
use tell::{say, tell_count, tell_refusal, tell_table};
use writer::the_area::{first_at, least};
use writer::the_refusal::Verdict;
use writer::write;

// The builder, and how many words and bytes are lent.
#[derive(Clone, Copy)]
struct State {
    builder: Builder,
    words: usize,
    bytes: usize,
}

// The listing, and the table as the events that it has, one a line.
fn show(rt: &impl Print, records: &[u32], text: &[u8]) -> io::Result<()> {
    let mut out = [7u8; 2048];
    let mut events = [7u32; 1024];
    let mut attributes = [7u32; 1024];
    let mut bytes = [7u8; 4096];
    let listing = list(records, text, &mut out);
    let n = least(listing.length, 2048);
    say(rt, &out[..n])?;
    let writing = write(records, text, &mut events, &mut attributes, &mut bytes);
    tell_table(rt, writing.events, &events, &attributes, &bytes)
}

fn areas(x: State, s: &[u8]) -> State {
    let builder = x.builder;
    let records = lister::the_fixed::decimal_at(s, 0, 4, 9999);
    let bytes = lister::the_fixed::decimal_at(s, 5, 4, 9999);
    State {
        builder,
        words: (records.unwrap_or(0) as usize) * 32,
        bytes: bytes.unwrap_or(0) as usize,
    }
}

// A call. Where there was no builder before it, a refusal isn't told.
fn step(
    rt: &impl Print,
    b: Builder,
    records: &mut [u32],
    text: &mut [u8],
    line: &[u8],
) -> io::Result<Builder> {
    let built = perform(b, records, text, line);
    let verdict = built.verdict;
    match verdict {
        Verdict::Accepted => Ok(built.builder),
        Verdict::Refused => {
            if b.records != 0 {
                tell_refusal(rt, built.refusal, records, text, line)?;
            }
            Ok(built.builder)
        }
    }
}

fn turn(
    rt: &impl Print,
    x: State,
    records: &mut [u32],
    text: &mut [u8],
    line: &[u8],
) -> io::Result<State> {
    let n = least(x.words, records.len());
    let m = least(x.bytes, text.len());
    let b = x.builder;
    let end = first_at(line, b' ');
    let word = lister::the_names::code_in(b"areascountshow", b"\x05\x05\x04", front(line, end));
    match word {
        1 => Ok(areas(x, behind(line, 6))),
        2 => {
            tell_count(rt, b)?;
            Ok(x)
        }
        3 => {
            show(rt, &records[..n], &text[..m])?;
            Ok(x)
        }
        _ => {
            let next = step(rt, b, &mut records[..n], &mut text[..m], line)?;
            Ok(State {
                builder: next,
                words: x.words,
                bytes: x.bytes,
            })
        }
    }
}

fn run(rt: &impl Print, records: &mut [u32], text: &mut [u8], s: &[u8]) -> io::Result<()> {
    let mut x = State {
        builder: no_builder(),
        words: 0,
        bytes: 0,
    };
    let mut at = 0;
    while at < s.len() {
        let rest = &s[at..];
        let end = first_at(rest, b'\n');
        at += end + 1;
        x = turn(rt, x, records, text, front(rest, end))?;
    }
    Ok(())
}

fn main(rt: HostRuntime) -> io::Result<()> {
    let mut calls = [0u8; 16384];
    let mut words = [7u32; 2048];
    let mut text = [7u8; 2048];
    let given = read_input(&rt, &mut calls)?;
    run(&rt, &mut words, &mut text, given)?;
    Ok(())
}
