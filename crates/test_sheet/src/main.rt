// Release sheets of up to eight reports, printed; of what is refused number, event, attribute and length of the path.
#![tactic(auto)]

use list_input::front;
use sheet::sheet_of_eight;
use sheet_text::print_sheet;
use sheet_text::the_refusal::{Refusal, Verdict, number_of};
use sheet_text::the_tree_counts::Counts;
use std::io;

fn say(rt: &impl Print, bytes: &[u8]) -> io::Result<()> {
    rt.write_all(bytes)
}

fn say_number(rt: &impl Print, n: u64) -> io::Result<()> {
    print!(rt; " {n}")
}

fn tell_refusal(rt: &impl Print, refusal: Refusal) -> io::Result<()> {
    let cause = refusal.cause;
    let path = refusal.path;
    say(rt, b"refused")?;
    say_number(rt, number_of(cause) as u64)?;
    say_number(rt, refusal.event as u64)?;
    say_number(rt, refusal.attribute as u64)?;
    say_number(rt, path.len as u64)?;
    say(rt, b"\n")
}

fn tell(rt: &impl Print, records: [Counts; 8], out: &mut [u8]) -> io::Result<()> {
    let printed = print_sheet(sheet_of_eight(records), out);
    let verdict = printed.verdict;
    match verdict {
        Verdict::Accepted => say(rt, front(out, printed.length)),
        Verdict::Refused => tell_refusal(rt, printed.refusal),
    }
}

// A report without `disabled`, whatever stands in its word.
fn without(tests: u64, failures: u64, errors: u64, skipped: u64) -> Counts {
    Counts {
        tests,
        failures,
        errors,
        skipped,
        disabled: 9,
        presence: false,
    }
}

fn with(tests: u64, disabled: u64) -> Counts {
    Counts {
        tests,
        failures: 0,
        errors: 0,
        skipped: 0,
        disabled,
        presence: true,
    }
}

// No tests at all; then one report, in areas that suffice and are a byte short.
fn tell_areas(rt: &impl Print) -> io::Result<()> {
    let mut out = [7u8; 256];
    let mut fitting = [7u8; 72];
    let mut short = [7u8; 71];
    let none = without(0, 0, 0, 0);
    let one = without(5, 1, 0, 1);
    tell(rt, [none; 8], &mut out)?;
    tell(
        rt,
        [one, none, none, none, none, none, none, none],
        &mut fitting,
    )?;
    tell(
        rt,
        [one, none, none, none, none, none, none, none],
        &mut short,
    )
}

// A `disabled` of 0 is there; the three together exceed the tests, and pass the limit of a count.
fn tell_shares(rt: &impl Print) -> io::Result<()> {
    let mut out = [7u8; 256];
    let none = without(0, 0, 0, 0);
    let most = 18446744073709551615;
    tell(
        rt,
        [none, with(2, 0), none, none, none, none, none, with(3, 4)],
        &mut out,
    )?;
    tell(
        rt,
        [none, with(2, 0), none, none, none, none, none, none],
        &mut out,
    )?;
    tell(
        rt,
        [
            without(4, 1, 1, 1),
            without(0, 1, 1, 0),
            none,
            none,
            none,
            none,
            none,
            none,
        ],
        &mut out,
    )?;
    tell(
        rt,
        [
            without(most, most, most, most),
            none,
            none,
            none,
            none,
            none,
            none,
            none,
        ],
        &mut out,
    )
}

// Sums at the limit and one past it, in either order; 17 before 16.
fn tell_limits(rt: &impl Print) -> io::Result<()> {
    let mut out = [7u8; 256];
    let mut short = [7u8; 1];
    let none = without(0, 0, 0, 0);
    let most = with(18446744073709551615, 18446744073709551615);
    tell(
        rt,
        [none, none, none, most, none, none, none, none],
        &mut out,
    )?;
    tell(
        rt,
        [with(1, 0), none, none, most, none, none, none, none],
        &mut out,
    )?;
    tell(
        rt,
        [most, none, none, none, none, none, none, with(0, 1)],
        &mut short,
    )
}

fn main(rt: HostRuntime) -> io::Result<()> {
    tell_areas(&rt)?;
    tell_shares(&rt)?;
    tell_limits(&rt)?;
    Ok(())
}
