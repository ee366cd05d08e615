// How what was built is told.
ghost use Rattle.std.specs.Prelude.{◌≤◌};

use lister::the_tree_record::field;
use port_values::the_build_draft::Builder;
use std::io;
use writer::the_area::least;
use writer::the_refusal::{Refusal, number_of};

pub fn say(rt: &impl Print, bytes: &[u8]) -> io::Result<()> {
    rt.write_all(bytes)
}

fn is_zero(words: &[u32], text: &[u8]) -> bool {
    let mut i = 0;
    let mut zero = true;
    while i < words.len() {
        zero = zero & (words[i] == 0);
        i += 1;
    }
    zero & is_clear(text)
}

fn is_clear(text: &[u8]) -> bool {
    let mut i = 0;
    let mut zero = true;
    while i < text.len() {
        zero = zero & (text[i] == 0);
        i += 1;
    }
    zero
}

// How many records and bytes are used.
pub fn tell_count(rt: &impl Print, b: Builder) -> io::Result<()> {
    println!(rt; "{} records, {} bytes", b.records, b.bytes)
}

// The refusal's number, whether the areas are zero, and the line of the call.
pub fn tell_refusal(
    rt: &impl Print,
    refusal: Refusal,
    words: &[u32],
    text: &[u8],
    line: &[u8],
) -> io::Result<()> {
    let cause = refusal.cause;
    print!(rt; "refused {}", number_of(cause))?;
    if is_zero(words, text) {
        say(rt, b", zero: ")?;
    } else {
        say(rt, b", not zero: ")?;
    }
    say(rt, line)?;
    say(rt, b"\n")
}

// The text whose start and length are words o and o + 1 of an entry, cut at the end.
fn say_text(rt: &impl Print, entry: &[u32], o: usize, bytes: &[u8]) -> io::Result<()>
    requires { o ≤ 4 }
{
    let part = lister::the_list_values::part_of(bytes, field(entry, o), field(entry, o + 1));
    say(rt, part)
}

// ` key="value"`
fn tell_attribute(rt: &impl Print, entry: &[u32], bytes: &[u8]) -> io::Result<()> {
    say(rt, b" ")?;
    say_text(rt, entry, 1, bytes)?;
    say(rt, b"=\"")?;
    say_text(rt, entry, 3, bytes)?;
    say(rt, b"\"")
}

// n attributes from number `first` on.
fn tell_attributes(
    rt: &impl Print,
    attributes: &[u32],
    bytes: &[u8],
    first: u32,
    n: u32,
) -> io::Result<()> {
    let mut i = first as usize;
    let end = least((first as usize) + (n as usize), attributes.len() / 5);
    while i < end {
        let at = i * 5;
        tell_attribute(rt, &attributes[at..], bytes)?;
        i += 1;
    }
    Ok(())
}

// An event's kind, text and attributes.
fn tell_event(rt: &impl Print, entry: &[u32], attributes: &[u32], bytes: &[u8]) -> io::Result<()> {
    print!(rt; "{} ", field(entry, 0))?;
    say_text(rt, entry, 1, bytes)?;
    tell_attributes(rt, attributes, bytes, field(entry, 3), field(entry, 4))?;
    say(rt, b"\n")
}

pub fn tell_table(
    rt: &impl Print,
    n: usize,
    events: &[u32],
    attributes: &[u32],
    bytes: &[u8],
) -> io::Result<()> {
    let mut i = 0;
    let end = least(n, events.len() / 5);
    while i < end {
        let at = i * 5;
        tell_event(rt, &events[at..], attributes, bytes)?;
        i += 1;
    }
    Ok(())
}
