// The release sheet as text: a bracket form a line, put into an area that the caller lends.
#![tactic(auto)]

ghost use Rattle.std.specs.Prelude.{◌≡◌, length, Some};
ghost use Rattle.list_text.specs.of_refusal.Refusal.{refused, late};
ghost use Rattle.list_text.specs.of_names.Bytes.{bytes};
ghost use Rattle.list_text.specs.of_digits.Digits.{decimal};
ghost use Rattle.list_text.specs.inside.Behind.{filled, Puts};
ghost use Rattle.sheet_text.specs.Printed.{line, or_missing, share, sheet_text, outcome_in, printing, sheet_area, printed_from};

pub use list_text::the_refusal;
use list_text::the_refusal::{Cause, Refusal, Verdict, no_refusal, refuse_late};
use list_text::{put, put_decimal};
pub use sheet_sums as the_sheet_sums;
pub use sheet_sums::the_tree_counts;
use sheet_sums::{Released, Sheet};

// How many bytes the sheet has, or why there is none.
#[derive(Clone, Copy)]
pub struct Printed {
    pub verdict: Verdict,
    pub length: usize,
    pub refusal: Refusal,
}

fn put_line(out: &mut [u8], k: Option<usize>, label: &[u8], n: u64) -> Option<usize>
    ensures { Puts (filled k out.old) (line label.now (decimal n)) (filled result out.new) }
{
    let named = put(out, k, label);
    let number = put_decimal(out, named, n);
    put(out, number, b")\n")
}

fn put_disabled(out: &mut [u8], k: Option<usize>, presence: bool, n: u64) -> Option<usize>
    ensures { Puts (filled k out.old) (line (bytes "(disabled ") (or_missing presence n)) (filled result out.new) }
{
    if presence {
        return put_line(out, k, b"(disabled ", n);
    }
    put(out, k, b"(disabled -)\n")
}

fn put_passed(out: &mut [u8], k: Option<usize>, passed: u64, tests: u64) -> Option<usize>
    ensures { Puts (filled k out.old) (line (bytes "(passed ") (share passed tests)) (filled result out.new) }
{
    let opened = put(out, k, b"(passed ");
    let first = put_decimal(out, opened, passed);
    put_line(out, first, b" ", tests)
}

// By rule C8.
fn put_sheet(out: &mut [u8], sheet: Sheet) -> Option<usize>
    ensures { Puts (filled (Some 0) out.old) (sheet_text sheet) (filled result out.new) }
{
    let sums = sheet.sums;
    let tests = put_line(out, Some(0), b"(tests ", sums.tests);
    let failures = put_line(out, tests, b"(failures ", sums.failures);
    let errors = put_line(out, failures, b"(errors ", sums.errors);
    let skipped = put_line(out, errors, b"(skipped ", sums.skipped);
    let disabled = put_disabled(out, skipped, sums.presence, sums.disabled);
    put_passed(out, disabled, sheet.passed, sums.tests)
}

fn refuse(cause: Cause) -> Printed
    ensures { result ≡ printed_from (refused (late cause)) }
{
    Printed {
        verdict: Verdict::Refused,
        length: 0,
        refusal: refuse_late(cause),
    }
}

// Puts the sheet at the front of out, and zeros behind it; at a refusal all of out becomes zero. 16 is looked at last (rule C9).
pub fn print_sheet(released: Released, out: &mut [u8]) -> Printed
    ensures value { result ≡ printed_from (printing (outcome_in released) (length out.old)) }
    ensures out_after { out.new ≡ sheet_area (outcome_in released) (length out.old) }
{
    list_text::the_area::clear(out);
    let verdict = released.verdict;
    let sheet = released.sheet;
    let why = released.refusal;
    let cause = why.cause;
    let Verdict::Accepted = verdict else {
        return refuse(cause);
    };
    let put = put_sheet(out, sheet);
    let Some(length) = put else {
        list_text::the_area::clear(out);
        return refuse(Cause::OutputFull);
    };
    Printed {
        verdict: Verdict::Accepted,
        length,
        refusal: no_refusal(),
    }
}
