// The calls of a builder, each from a line: its name, then codes of one digit as in ports/c/kerzhoma.h, then a text, a space between
// them; the key and the value of a pair have `=` between them.
ghost use Rattle.std.specs.Prelude.{◌<◌};

use builder::{
    add_extra, add_property, add_rerun, add_test_case, add_test_suite, finish_report, new_report,
    unnamed_report,
};
use builder_set::{
    set_number, set_output_lossy, set_rerun_kind, set_text, set_time, set_timestamp, set_uuid,
};
use lister::the_timestamp::Moment;
use lister::the_uuids::Words;
use port_values::codes::{
    element_at, family_at, field_at, holder_at, kind_at, number_at, outcome_at,
};
use port_values::the_build_draft::{Builder, Built};
use program_input::the_list_input::front;
use writer::the_area::first_at;

// Where the setters begin among the names of calls.
const SETTERS: usize = 8;

// s from i on; nothing where it is shorter.
pub fn behind(s: &[u8], i: usize) -> &[u8] {
    if i < s.len() {
        return &s[i..];
    }
    &s[..0]
}

// The digit at i; 0 where s is shorter.
fn digit_at(s: &[u8], i: usize) -> u8
    ensures { result < 16 }
{
    if i < s.len() {
        return s[i] % 16;
    }
    0
}

fn key_in(s: &[u8]) -> &[u8] {
    front(s, first_at(s, b'='))
}

fn value_in(s: &[u8]) -> &[u8] {
    behind(behind(s, first_at(s, b'=')), 1)
}

fn moment(hour: u8) -> Moment {
    Moment {
        year: 2026,
        month: 2,
        day: 28,
        hour,
        minute: 30,
        second: 59,
        nanos: 125000000,
        offset: 1559,
    }
}

fn words() -> Words {
    Words {
        a: 0x123e4567,
        b: 0xe89b12d3,
        c: 0xa4564266,
        d: 0x14174000,
    }
}

// A call that adds an element; whatever is no call ends the report.
fn add(b: Builder, records: &mut [u32], text: &mut [u8], call: usize, s: &[u8]) -> Built {
    let code = digit_at(s, 0) as u32;
    let more = behind(s, 2);
    match call {
        1 => new_report(records, text, s),
        2 => unnamed_report(records, text),
        3 => add_test_suite(b, records, text, s),
        4 => add_test_case(b, records, text, more, outcome_at(code)),
        5 => add_rerun(b, records, text, kind_at(code)),
        6 => add_property(
            b,
            records,
            text,
            holder_at(code),
            key_in(more),
            value_in(more),
        ),
        7 => add_extra(
            b,
            records,
            text,
            holder_at(code),
            key_in(more),
            value_in(more),
        ),
        _ => finish_report(b, records, text),
    }
}

// A setter. The second digit is the hour of a timestamp, the seconds of a time, which has 62,500,000 nanoseconds more, or the
// thousand millions of a number.
fn set(b: Builder, records: &mut [u32], text: &mut [u8], call: usize, s: &[u8]) -> Built {
    let code = digit_at(s, 0) as u32;
    let n = digit_at(s, 2);
    let field = field_at(n as u32);
    match call {
        8 => set_text(b, records, text, element_at(code), field, behind(s, 4)),
        9 => set_output_lossy(b, records, text, element_at(code), field, behind(s, 4)),
        10 => set_timestamp(b, records, text, element_at(code), moment(n)),
        11 => set_time(b, records, text, element_at(code), n as u32, 62500000),
        12 => set_uuid(b, records, text, words()),
        13 => set_number(b, records, text, number_at(code), n as u64 * 1000000000),
        _ => set_rerun_kind(b, records, text, family_at(code)),
    }
}

pub fn perform(b: Builder, records: &mut [u32], text: &mut [u8], line: &[u8]) -> Built {
    let end = first_at(line, b' ');
    let call = lister::the_names::code_in(
        b"reportunnamedsuitecasererunpropertyextratextlossystamptimeuuidnumberkind",
        b"\x06\x07\x05\x04\x05\x08\x05\x04\x05\x05\x04\x04\x06\x04",
        front(line, end),
    );
    let s = behind(behind(line, end), 1);
    if call < SETTERS {
        return add(b, records, text, call, s);
    }
    set(b, records, text, call, s)
}
