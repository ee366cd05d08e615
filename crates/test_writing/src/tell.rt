// How a case of writing is told: the numbers of events, attributes and bytes, or why it is refused, as number, path length,
// event and attribute, `-` where none is concerned. Then whether the areas are zero: behind the table, or at a refusal throughout.
// Crate `test_tell` isn't used, since it would link all of reading.
use rehearsal::the_writer::Writing;
use std::io;
use tree_put::the_refusal::{NOWHERE, Refusal, Verdict, number_of};

pub fn say(rt: &impl Print, bytes: &[u8]) -> io::Result<()> {
    rt.write_all(bytes)
}

fn tell_number(rt: &impl Print, n: u64) -> io::Result<()> {
    print!(rt; " {n}")
}

fn tell_place(rt: &impl Print, n: u32) -> io::Result<()> {
    if n == NOWHERE {
        return say(rt, b" -");
    }
    tell_number(rt, n as u64)
}

fn tell_refusal(rt: &impl Print, refusal: Refusal) -> io::Result<()> {
    let cause = refusal.cause;
    let path = refusal.path;
    say(rt, b"refused")?;
    tell_place(rt, number_of(cause))?;
    tell_number(rt, path.len as u64)?;
    tell_place(rt, refusal.event)?;
    tell_place(rt, refusal.attribute)
}

// Five words a line.
pub fn tell_words(rt: &impl Print, words: &[u32]) -> io::Result<()> {
    let mut i = 0;
    while i < words.len() {
        tell_place(rt, words[i])?;
        if i % 5 == 4 {
            say(rt, b"\n")?;
        }
        i += 1;
    }
    Ok(())
}

// Whether the words behind n entries of five words are zero.
fn zero_words(words: &[u32], n: usize) -> bool {
    let mut i = 0;
    while i < words.len() {
        if (n <= i / 5) & (words[i] != 0) {
            return false;
        }
        i += 1;
    }
    true
}

fn zero_bytes(bytes: &[u8], n: usize) -> bool {
    let mut i = 0;
    while i < bytes.len() {
        if (n <= i) & (bytes[i] != 0) {
            return false;
        }
        i += 1;
    }
    true
}

fn tell_zero(rt: &impl Print, zero: bool) -> io::Result<()> {
    if zero {
        say(rt, b", zero")
    } else {
        say(rt, b", not zero")
    }
}

// By how many events, attributes and bytes stand there.
fn tell_rest(
    rt: &impl Print,
    e: usize,
    a: usize,
    b: usize,
    events: &[u32],
    attributes: &[u32],
    bytes: &[u8],
) -> io::Result<()> {
    let words = zero_words(events, e) & zero_words(attributes, a);
    tell_zero(rt, words & zero_bytes(bytes, b))
}

pub fn tell_writing(
    rt: &impl Print,
    writing: Writing,
    events: &[u32],
    attributes: &[u32],
    bytes: &[u8],
) -> io::Result<()> {
    let verdict = writing.verdict;
    match verdict {
        Verdict::Accepted => {
            say(rt, b"wrote")?;
            tell_number(rt, writing.events as u64)?;
            tell_number(rt, writing.attributes as u64)?;
            tell_number(rt, writing.bytes as u64)?;
            tell_rest(
                rt,
                writing.events,
                writing.attributes,
                writing.bytes,
                events,
                attributes,
                bytes,
            )?;
            say(rt, b" behind\n")
        }
        Verdict::Refused => {
            tell_refusal(rt, writing.refusal)?;
            tell_rest(rt, 0, 0, 0, events, attributes, bytes)?;
            say(rt, b"\n")
        }
    }
}
