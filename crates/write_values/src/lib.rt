// The values of a record, and names by their codes, put behind what the byte area holds.
#![tactic(auto)]

ghost use Rattle.std.specs.Prelude.{◌≡◌, ◌+◌, ◌-◌, ◌*◌, ◌≤◌, cond, get_or, ltb};
ghost use Rattle.tree_stamp.specs.of_digits.Digits.{decimal};
ghost use Rattle.write_bytes.specs.of_write_escape.Escape.{escaped};
ghost use Rattle.tree_stamp.specs.of_tree_report.Fields.{text_at, number_at};
ghost use Rattle.write_bytes.specs.of_list_text.inside.Behind.{filled, Puts};
ghost use Rattle.write_codes.specs.of_write_table.inside.Forms.{key_text, key_in};
ghost use Rattle.write_codes.specs.of_write_items.inside.Values.{tag_name, key_name, cut_at, words_of, value_of};

use tree_stamp::moment_of;
use tree_stamp::the_names::key;
use tree_stamp::the_tree_record::{field, word};
use tree_stamp::the_uuids::Words;
use write_bytes::the_list_text::put;
use write_bytes::{put_escaped, put_timestamp, put_uuid};
use write_codes::offset_of_key;
pub use write_tags as the_write_tags;
pub use write_tags::the_list_values;
use write_tags::the_list_values::part_of;
use write_tags::the_write_form::form;

fn byte_at(s: &[u8], i: usize) -> u8
    ensures { result ≡ get_or s.now i 0 }
{
    s.get(i).copied().unwrap_or(0)
}

// Of names that stand one behind the other, the one with that code; it ends where the next begins.
fn put_named(
    bytes: &mut [u8],
    k: Option<usize>,
    names: &[u8],
    starts: &[u8],
    code: u8,
) -> Option<usize>
    ensures { Puts (filled k bytes.old) (cut_at names.now starts.now code) (filled result bytes.new) }
{
    let i = code as usize;
    let start = byte_at(starts, i);
    let len = byte_at(starts, i + 1).saturating_sub(start);
    put(bytes, k, part_of(names, start as u32, len as u32))
}

fn put_any_tag(bytes: &mut [u8], k: Option<usize>, code: u8) -> Option<usize>
    ensures { Puts (filled k bytes.old) (tag_name code) (filled result bytes.new) }
{
    put_named(
        bytes,
        k,
        b"testsuitestestsuitetestcasepropertiespropertyfailureerrorskippedflakyFailureflakyErrorrerunFailurererunErrorstackTracesystem-outsystem-err",
        b"\x00\x00\x0a\x13\x1b\x25\x2d\x34\x39\x40\x4c\x56\x62\x6c\x76\x80\x8a",
        code,
    )
}

// The usual ones by themselves: a table of all is put into memory each time.
pub fn put_tag_name(bytes: &mut [u8], k: Option<usize>, code: u8) -> Option<usize>
    ensures { Puts (filled k bytes.old) (tag_name code) (filled result bytes.new) }
{
    match code {
        3 => put(bytes, k, b"testcase"),
        5 => put(bytes, k, b"property"),
        6 => put(bytes, k, b"failure"),
        7 => put(bytes, k, b"error"),
        8 => put(bytes, k, b"skipped"),
        11 => put(bytes, k, b"rerunFailure"),
        14 => put(bytes, k, b"system-out"),
        15 => put(bytes, k, b"system-err"),
        _ => put_any_tag(bytes, k, code),
    }
}

fn put_any_key(bytes: &mut [u8], k: Option<usize>, code: u8) -> Option<usize>
    ensures { Puts (filled k bytes.old) (key_name code) (filled result bytes.new) }
{
    put_named(
        bytes,
        k,
        b"nameclassnameuuidtimestamptimetestsfailureserrorsskippeddisabledassertionsmessagetypevaluehostnamename",
        b"\x00\x00\x04\x0d\x11\x1a\x1e\x23\x2b\x31\x38\x40\x4a\x51\x55\x5a\x62\x66",
        code,
    )
}

fn put_key_name(bytes: &mut [u8], k: Option<usize>, code: u8) -> Option<usize>
    ensures { Puts (filled k bytes.old) (key_name code) (filled result bytes.new) }
{
    match code {
        1 => put(bytes, k, b"name"),
        2 => put(bytes, k, b"classname"),
        4 => put(bytes, k, b"timestamp"),
        5 => put(bytes, k, b"time"),
        12 => put(bytes, k, b"message"),
        13 => put(bytes, k, b"type"),
        14 => put(bytes, k, b"value"),
        _ => put_any_key(bytes, k, code),
    }
}

fn known(code: u8) -> u8
    ensures { result ≡ cond (ltb code 17) code 0 }
{
    if code < 17 { code } else { 0 }
}

// A key with what stands around it in the XML form, ready made; no key has the code 0.
fn put_key_text(bytes: &mut [u8], k: Option<usize>, code: u8) -> Option<usize>
    ensures { Puts (filled k bytes.old) (key_text (key_name code)) (filled result bytes.new) }
{
    put_named(
        bytes,
        k,
        b" =\" name=\" classname=\" uuid=\" timestamp=\" time=\" tests=\" failures=\" errors=\" skipped=\" disabled=\" assertions=\" message=\" type=\" value=\" hostname=\" name=\"",
        b"\x00\x03\x0a\x16\x1d\x29\x30\x38\x43\x4c\x56\x61\x6e\x78\x7f\x87\x92\x99",
        known(code),
    )
}

// The key with that code, in either form.
pub fn put_key(bytes: &mut [u8], k: Option<usize>, form: u32, code: u8) -> Option<usize>
    ensures { Puts (filled k bytes.old) (key_in form (key_name code)) (filled result bytes.new) }
{
    if form == form::TABLE {
        return put_key_name(bytes, k, code);
    }
    put_key_text(bytes, k, code)
}

fn number_of(low: u32, high: u32) -> u64
    ensures { result ≡ low + high * 4294967296 }
{
    low as u64 + high as u64 * 4294967296
}

fn words_of(r: &[u32]) -> Words
    ensures { result ≡ words_of r.now }
{
    Words {
        a: field(r, word::UUID),
        b: field(r, word::UUID + 1),
        c: field(r, word::UUID_BACK),
        d: field(r, word::UUID_BACK + 1),
    }
}

pub fn put_text_at(
    bytes: &mut [u8],
    k: Option<usize>,
    text: &[u8],
    r: &[u32],
    o: usize,
) -> Option<usize>
    requires { o ≤ 30 }
    ensures { Puts (filled k bytes.old) (escaped (text_at text.now r.now o)) (filled result bytes.new) }
{
    put_escaped(bytes, k, part_of(text, field(r, o), field(r, o + 1)))
}

fn put_number_at(bytes: &mut [u8], k: Option<usize>, r: &[u32], o: usize) -> Option<usize>
    requires { o ≤ 30 }
    ensures { Puts (filled k bytes.old) (decimal (number_at r.now o)) (filled result bytes.new) }
{
    write_bytes::the_list_text::put_decimal(bytes, k, number_of(field(r, o), field(r, o + 1)))
}

// The value under a key.
pub fn put_value(
    bytes: &mut [u8],
    k: Option<usize>,
    text: &[u8],
    r: &[u32],
    code: u8,
) -> Option<usize>
    ensures { Puts (filled k bytes.old) (value_of text.now r.now code) (filled result bytes.new) }
{
    let c = code as usize;
    if c == key::UUID {
        return put_uuid(bytes, k, words_of(r));
    }
    if c == key::TIMESTAMP {
        return put_timestamp(bytes, k, moment_of(r));
    }
    if c == key::TIME {
        return write_bytes::the_list_text::put_time(
            bytes,
            k,
            field(r, word::SECONDS),
            field(r, word::TIME_NANOS),
        );
    }
    let o = offset_of_key(code);
    if (key::TESTS <= c) & (c <= key::ASSERTIONS) {
        return put_number_at(bytes, k, r, o);
    }
    put_text_at(bytes, k, text, r, o)
}
