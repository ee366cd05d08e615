// How programs that check stored answers tell what a table comes to: its listing, or why it is refused, as number, event,
// attribute, and each path element's kind, index and event, `-` where none is concerned.
#![tactic(auto)]

use list_input::front;
use lister::list;
use reader::read;
use reader::the_refusal::{NOWHERE, Path, PathElement, Refusal, Verdict, number_of};
use std::io;

pub fn write(rt: &impl Print, bytes: &[u8]) -> io::Result<()> {
    rt.write_all(bytes)
}

fn tell_number(rt: &impl Print, n: u32) -> io::Result<()> {
    if n == NOWHERE {
        return write(rt, b" -");
    }
    print!(rt; " {n}")
}

fn tell_element(rt: &impl Print, e: PathElement) -> io::Result<()> {
    tell_number(rt, e.kind)?;
    tell_number(rt, e.index)?;
    tell_number(rt, e.event)
}

// The element at i of a path of len elements.
fn tell_if(rt: &impl Print, e: PathElement, i: usize, len: usize) -> io::Result<()> {
    if i < len {
        return tell_element(rt, e);
    }
    Ok(())
}

fn tell_path(rt: &impl Print, path: Path) -> io::Result<()> {
    let elements = path.elements;
    let len = path.len;
    let e0 = elements[0];
    let e1 = elements[1];
    let e2 = elements[2];
    let e3 = elements[3];
    let e4 = elements[4];
    let e5 = elements[5];
    tell_if(rt, e0, 0, len)?;
    tell_if(rt, e1, 1, len)?;
    tell_if(rt, e2, 2, len)?;
    tell_if(rt, e3, 3, len)?;
    tell_if(rt, e4, 4, len)?;
    tell_if(rt, e5, 5, len)
}

pub fn tell_refusal(rt: &impl Print, refusal: Refusal) -> io::Result<()> {
    let cause = refusal.cause;
    let path = refusal.path;
    write(rt, b"(refused)")?;
    tell_number(rt, number_of(cause))?;
    tell_number(rt, refusal.event)?;
    tell_number(rt, refusal.attribute)?;
    tell_path(rt, path)?;
    write(rt, b"\n")
}

pub fn tell_listing(
    rt: &impl Print,
    records: &[u32],
    text: &[u8],
    out: &mut [u8],
) -> io::Result<()> {
    let listing = list(records, text, out);
    let verdict = listing.verdict;
    match verdict {
        Verdict::Accepted => write(rt, front(out, listing.length)),
        Verdict::Refused => tell_refusal(rt, listing.refusal),
    }
}

pub fn tell_table(
    rt: &impl Print,
    events: &[u32],
    attributes: &[u32],
    source: &[u8],
    records: &mut [u32],
    text: &mut [u8],
    scratch: &mut [u8],
    out: &mut [u8],
) -> io::Result<()> {
    let reading = read(events, attributes, source, records, text, scratch);
    let verdict = reading.verdict;
    match verdict {
        Verdict::Accepted => tell_listing(rt, records, text, out),
        Verdict::Refused => tell_refusal(rt, reading.refusal),
    }
}
