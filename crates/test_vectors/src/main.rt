// Boundary values of the leaves, with examples of the RFCs and of XML 1.0 written down from memory. Each line of standard input is a
// leaf and a text, and is written with the result behind it; expected.py computes the same from the rules.
#![tactic(auto)]

mod show;

use program_input::read_input;
use show::{bytes_of, front, show_bytes, show_kept, show_moment, show_refusal, show_words, write};
use std::io;
use text_pieces::the_text::kept::kept_of;
use timestamp::the_refusal::number_of;
use trim::the_area::first_at;

fn try_utf8(rt: &impl Print, hex: &[u8]) -> io::Result<()> {
    let mut room = [0u8; 32];
    let n = bytes_of(hex, &mut room);
    if trim::the_utf8::is_utf8(&room[..n]) {
        write(rt, b"yes")
    } else {
        write(rt, b"no")
    }
}

fn try_trim(rt: &impl Print, hex: &[u8]) -> io::Result<()> {
    let mut room = [0u8; 32];
    let n = bytes_of(hex, &mut room);
    show_bytes(rt, trim::trim(&room[..n]))
}

fn show_char(rt: &impl Print, c: u32) -> io::Result<()> {
    let coded = trim::the_utf8_chars::encode_of(c);
    let bytes = coded.bytes;
    show_bytes(rt, front(&bytes, coded.n))
}

// The number, of at most 31 digits, is the name of a reference behind its #.
fn try_char(rt: &impl Print, digits: &[u8]) -> io::Result<()> {
    let mut name = [0u8; 32];
    name[0] = b'#';
    trim::the_area::copy_into(&mut name[1..], digits);
    match text_pieces::the_reference::named_by(front(&name, digits.len() + 1)) {
        Some(c) => show_char(rt, c),
        None => show_refusal(rt, 10),
    }
}

fn try_text(rt: &impl Print, text: &[u8]) -> io::Result<()> {
    let mut room = [0u8; 64];
    let kept = text_pieces::gather_text(&mut room, text);
    show_kept(rt, kept, 14, &room)
}

fn try_cdata(rt: &impl Print, hex: &[u8]) -> io::Result<()> {
    let mut text = [0u8; 32];
    let n = bytes_of(hex, &mut text);
    let mut room = [0u8; 64];
    let kept = text_pieces::gather_cdata(&mut room, &text[..n]);
    show_kept(rt, kept, 14, &room)
}

fn try_indent(rt: &impl Print) -> io::Result<()> {
    let mut room = [0u8; 64];
    let kept = text_pieces::gather_indent(&mut room);
    show_kept(rt, kept, 14, &room)
}

fn try_attribute(rt: &impl Print, text: &[u8]) -> io::Result<()> {
    let mut room = [0u8; 64];
    let kept = text_pieces::the_text::value::store_value(&mut room, text);
    show_kept(rt, kept, 13, &room)
}

fn try_filter(rt: &impl Print, hex: &[u8]) -> io::Result<()> {
    let mut text = [0u8; 32];
    let n = bytes_of(hex, &mut text);
    let mut room = [0u8; 64];
    let kept = kept_of(text_pieces::the_text_filter::store(&mut room, &text[..n]));
    show_kept(rt, kept, 13, &room)
}

fn try_escape(rt: &impl Print, hex: &[u8]) -> io::Result<()> {
    let mut text = [0u8; 32];
    let n = bytes_of(hex, &mut text);
    let mut room = [0u8; 64];
    let kept = kept_of(escape::escape_into(&mut room, &text[..n]));
    show_kept(rt, kept, 16, &room)
}

// Ten digits of seconds and, behind a space, ten of nanoseconds.
fn try_written(rt: &impl Print, text: &[u8]) -> io::Result<()> {
    let secs = uuids::the_fixed::decimal_at(text, 0, 10, 4294967295);
    let nanos = uuids::the_fixed::decimal_at(text, 11, 10, 4294967295);
    let mut room = [0u8; 64];
    let kept = kept_of(time_text::write_time(&mut room, secs.unwrap_or(0), nanos.unwrap_or(0)));
    show_kept(rt, kept, 16, &room)
}

fn try_entity(rt: &impl Print, name: &[u8]) -> io::Result<()> {
    let mut room = [0u8; 64];
    let kept = text_pieces::gather_reference(&mut room, name);
    show_kept(rt, kept, 14, &room)
}

fn try_integer(rt: &impl Print, text: &[u8]) -> io::Result<()> {
    match integer::integer_of(text) {
        Ok(n) => print!(rt; "{n}"),
        Err(cause) => show_refusal(rt, number_of(cause) as u64),
    }
}

fn try_time(rt: &impl Print, text: &[u8]) -> io::Result<()> {
    match time_text::the_time::read::read_time(text) {
        Ok((secs, nanos)) => print!(rt; "{secs} {nanos}"),
        Err(cause) => show_refusal(rt, number_of(cause) as u64),
    }
}

fn try_timestamp(rt: &impl Print, text: &[u8]) -> io::Result<()> {
    match timestamp::timestamp_of(text) {
        Ok(m) => show_moment(rt, m),
        Err(cause) => show_refusal(rt, number_of(cause) as u64),
    }
}

fn try_uuid(rt: &impl Print, text: &[u8]) -> io::Result<()> {
    match uuids::uuid_of(text) {
        Ok(w) => show_words(rt, w),
        Err(cause) => show_refusal(rt, number_of(cause) as u64),
    }
}

fn try_leaf(rt: &impl Print, leaf: &[u8], text: &[u8]) -> io::Result<()> {
    let code = integer::the_names::code_in(
        b"utf8chartextentitytrimintegertimetimestampuuidattributefiltercdataindentescapewritten",
        b"\x04\x04\x04\x06\x04\x07\x04\x09\x04\x09\x06\x05\x06\x06\x07",
        leaf,
    );
    match code {
        1 => try_utf8(rt, text),
        2 => try_char(rt, text),
        3 => try_text(rt, text),
        4 => try_entity(rt, text),
        5 => try_trim(rt, text),
        6 => try_integer(rt, text),
        7 => try_time(rt, text),
        8 => try_timestamp(rt, text),
        9 => try_uuid(rt, text),
        10 => try_attribute(rt, text),
        11 => try_filter(rt, text),
        12 => try_cdata(rt, text),
        13 => try_indent(rt),
        14 => try_escape(rt, text),
        15 => try_written(rt, text),
        _ => write(rt, b"no such leaf"),
    }
}

fn try_line(rt: &impl Print, line: &[u8]) -> io::Result<()> {
    write(rt, line)?;
    write(rt, b": ")?;
    let end = first_at(line, b' ');
    if end < line.len() {
        let from = end + 1;
        try_leaf(rt, &line[..end], &line[from..])?;
    }
    write(rt, b"\n")
}

fn try_lines(rt: &impl Print, s: &[u8]) -> io::Result<()> {
    let mut at = 0;
    // while: each step passes a whole line.
    while at < s.len() {
        let rest = &s[at..];
        let end = first_at(rest, b'\n');
        try_line(rt, &rest[..end])?;
        at += end + 1;
    }
    Ok(())
}

fn main(rt: HostRuntime) -> io::Result<()> {
    let mut buffer = [0u8; 65536];
    let given = read_input(&rt, &mut buffer)?;
    try_lines(&rt, given)?;
    Ok(())
}
