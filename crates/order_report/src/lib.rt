// What a report to order is asked for, and the kinds of its cases: types that the definitions speak of.
#![tactic(auto)]

ghost use Rattle.std.specs.Prelude.{◌≡◌, ltb};
ghost use Rattle.order_report.specs.Rehearsal.{stated};

// How many cases, and how many of them are of each kind but the last: failures, errors, skipped, and passed with one flaky failure.
#[derive(Clone, Copy)]
pub struct Order {
    pub cases: u64,
    pub failures: u64,
    pub errors: u64,
    pub skipped: u64,
    pub flaky: u64,
}

// The kinds of cases, in the order in which the report has them (rule O4).
#[derive(Clone, Copy)]
pub enum Kind {
    Failure,
    Error,
    Skipped,
    Flaky,
    Plain,
}

// Whether the four kinds together exceed the cases, so that no report has such numbers (rule O2). Their sum may not be a u64: one kind after the
// other is taken from the cases.
pub fn exceeds_cases(o: Order) -> bool
    ensures { result ≡ ltb o.cases (stated o) }
{
    if o.cases < o.failures {
        return true;
    }
    let a = o.cases - o.failures;
    if a < o.errors {
        return true;
    }
    let b = a - o.errors;
    if b < o.skipped {
        return true;
    }
    b - o.skipped < o.flaky
}
