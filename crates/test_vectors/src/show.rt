// Texts from hexadecimal digits, and results to standard output.
ghost use Rattle.std.specs.Prelude.{◌<◌, ◌≤◌, length};

use std::io;
use text_pieces::the_text::kept::Unkept;
use timestamp::Moment;
use uuids::Words;

pub fn write(rt: &impl Print, s: &[u8]) -> io::Result<()> {
    rt.write_all(s)
}

pub fn show_refusal(rt: &impl Print, n: u64) -> io::Result<()> {
    print!(rt; "refused {n}")
}

pub fn show_bytes(rt: &impl Print, s: &[u8]) -> io::Result<()> {
    for byte in s {
        print!(rt; "{byte:02x}")?;
    }
    Ok(())
}

// The first n bytes of s, all of them where there are fewer.
pub fn front(s: &[u8], n: usize) -> &[u8] {
    if n < s.len() {
        return &s[..n];
    }
    s
}

// `full` is the refusal of an area that is too short.
pub fn show_kept(
    rt: &impl Print,
    kept: Result<usize, Unkept>,
    full: u64,
    room: &[u8; 64],
) -> io::Result<()> {
    match kept {
        Ok(n) => show_bytes(rt, front(room, n)),
        Err(Unkept::Full) => show_refusal(rt, full),
        Err(Unkept::NotUtf8) => show_refusal(rt, 2),
        Err(Unkept::BadReference) => show_refusal(rt, 10),
        Err(Unkept::UnknownName) => show_refusal(rt, 21),
    }
}

fn show_next(rt: &impl Print, n: u64) -> io::Result<()> {
    print!(rt; " {n}")
}

pub fn show_moment(rt: &impl Print, m: Moment) -> io::Result<()> {
    print!(rt; "{}", m.year)?;
    show_next(rt, m.month as u64)?;
    show_next(rt, m.day as u64)?;
    show_next(rt, m.hour as u64)?;
    show_next(rt, m.minute as u64)?;
    show_next(rt, m.second as u64)?;
    show_next(rt, m.nanos as u64)?;
    show_next(rt, m.offset as u64)
}

fn show_word(rt: &impl Print, w: u32) -> io::Result<()> {
    print!(rt; "{w:08x}")
}

pub fn show_words(rt: &impl Print, w: Words) -> io::Result<()> {
    show_word(rt, w.a)?;
    write(rt, b" ")?;
    show_word(rt, w.b)?;
    write(rt, b" ")?;
    show_word(rt, w.c)?;
    write(rt, b" ")?;
    show_word(rt, w.d)
}

// The value of a digit, 0 to 9 or a to f.
fn digit_of(b: u8) -> u8
    ensures { result < 16 }
{
    if b < b'a' {
        return b % 16;
    }
    (b % 16 + 9) % 16
}

// The bytes that pairs of digits are, as many as there is room for.
pub fn bytes_of(hex: &[u8], room: &mut [u8]) -> usize
    ensures { result ≤ length room.new }
{
    let n = room.len().min(hex.len() / 2);
    for k in 0..n {
        room[k] = digit_of(hex[2 * k]) * 16 + digit_of(hex[2 * k + 1]);
    }
    n
}
