// The status rule (rules S6 to S9), and the tally of a case's status elements that it goes by.
#![tactic(auto)]

ghost use Rattle.std.specs.Prelude.{◌≡◌};
ghost use Rattle.tree_status.specs.Status as rule;

pub use tree_record as the_tree_record;
use tree_record::kind::{FLAKY_ERROR, SKIPPED};

// How many mains there are, the kind of the last one, and how many flaky runs and reruns.
#[derive(Clone, Copy, Default)]
pub struct Tally {
    pub mains: u32,
    pub main: u32,
    pub flaky: u32,
    pub reruns: u32,
}

pub fn no_status() -> Tally
    ensures { result ≡ rule.no_status }
{
    Tally::default()
}

// One status element more (rules S1 and S5). The counts are below the top of a word.
pub fn tallied(t: Tally, kind: u32) -> Tally
    requires { rule.Few 4294967294 t }
    ensures { result ≡ rule.tallied t kind }
{
    if kind <= SKIPPED {
        return Tally {
            mains: t.mains + 1,
            main: kind,
            ..t
        };
    }
    if kind <= FLAKY_ERROR {
        return Tally {
            flaky: t.flaky + 1,
            ..t
        };
    }
    Tally {
        reruns: t.reruns + 1,
        ..t
    }
}

// The status rule (rules S6 to S9).
pub fn is_ruled(t: Tally) -> bool
    ensures { result ≡ rule.ruled t }
{
    let reruns_alone = (t.mains == 0) & (0 < t.reruns);
    let skipped_runs = (t.main == SKIPPED) & ((0 < t.flaky) | (0 < t.reruns));
    let both = (0 < t.flaky) & (0 < t.reruns);
    (t.mains <= 1) & (!reruns_alone & (!skipped_runs & !both))
}
