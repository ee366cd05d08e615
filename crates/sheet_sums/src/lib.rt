// The release sheet's numbers: exact sums over counts, one a report, and what they come to. Counts go in and come back by value.
#![tactic(auto)]

ghost use Rattle.std.specs.Prelude.{◌≡◌};
ghost use Rattle.tree_counts.specs.of_refusal.Refusal.{refused, late};
ghost use Rattle.sheet_sums.specs.Sheet.{no_counts, passed_of, released_from};
ghost use Rattle.sheet_sums.specs.inside.Running.{taken_of, begun, totalled, finished};

pub use tree_counts as the_tree_counts;
use tree_counts::Counts;
use tree_counts::the_refusal::{Cause, Refusal, Verdict, no_refusal, refuse_late};

// At most so many are summed (rule C4).
pub const MOST_REPORTS: usize = 4096;

// The sums, and the tests without failure, error or skip.
#[repr(C)]
#[derive(Clone, Copy)]
pub struct Sheet {
    pub sums: Counts,
    pub passed: u64,
}

// The sheet, or why there is none.
#[derive(Clone, Copy)]
pub struct Released {
    pub verdict: Verdict,
    pub sheet: Sheet,
    pub refusal: Refusal,
}

// How many of n counts are summed.
pub fn taken(n: usize) -> usize
    ensures { result ≡ taken_of n }
{
    if n <= MOST_REPORTS {
        return n;
    }
    0
}

fn no_counts() -> Counts
    ensures { result ≡ no_counts }
{
    Counts {
        tests: 0,
        failures: 0,
        errors: 0,
        skipped: 0,
        disabled: 0,
        presence: false,
    }
}

// The sums so far; Err has them as they were before one of them passed the limit of a count.
pub fn begin() -> Result<Counts, Counts>
    ensures { result ≡ begun }
{
    Ok(no_counts())
}

// One report more; past the limit the sums stay (rule C5).
pub fn add(t: Result<Counts, Counts>, c: Counts) -> Result<Counts, Counts>
    ensures { result ≡ totalled t c }
{
    let counted = t?.add_test_suite(c);
    match counted.verdict {
        Verdict::Accepted => Ok(counted.counts),
        Verdict::Refused => Err(counted.counts),
    }
}

// By rule C6. Each is taken away by itself: the three sums together may pass the limit of a count.
fn passed(c: Counts) -> u64
    ensures { result ≡ passed_of c }
{
    c.tests
        .saturating_sub(c.failures)
        .saturating_sub(c.errors)
        .saturating_sub(c.skipped)
}

fn refuse(cause: Cause) -> Released
    ensures { result ≡ released_from (refused (late cause)) }
{
    Released {
        verdict: Verdict::Refused,
        sheet: Sheet {
            sums: no_counts(),
            passed: 0,
        },
        refusal: refuse_late(cause),
    }
}

// The sheet of n counts with these sums: 11 comes before 17 (rule C9).
pub fn finish(n: usize, t: Result<Counts, Counts>) -> Released
    ensures { result ≡ released_from (finished n t) }
{
    if MOST_REPORTS < n {
        return refuse(Cause::TooManyReports);
    }
    let Ok(sums) = t else {
        return refuse(Cause::CountLimit);
    };
    Released {
        verdict: Verdict::Accepted,
        sheet: Sheet {
            sums,
            passed: passed(sums),
        },
        refusal: no_refusal(),
    }
}
