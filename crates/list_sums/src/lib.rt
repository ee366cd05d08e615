// What a case's status elements come to.
#![tactic(auto)]

pub use list_text as the_list_text;
pub use list_text::the_tree_record;

pub mod rows;

ghost use Rattle.std.specs.Prelude.{◌≡◌, [], ◌∷◌, ◌<◌};
ghost use Rattle.list_sums.specs.inside.Rows.{records_in};
ghost use Rattle.list_sums.specs.inside.Summed.{summed_on, summed_by, summary};

use list_text::the_tree_record::{bit, field, has_bit, kind, word};

// Whether there is a main; the first one's kind and flaky bit; the first run's kind, and how many runs there are.
#[derive(Clone, Copy)]
pub struct Summary {
    pub settled: bool,
    pub main: u32,
    pub flagged: bool,
    pub run: u32,
    pub runs: usize,
}

// The first main counts.
fn with_main(s: Summary, r: &[u32]) -> Summary
    ensures { result ≡ summed_on s (r.now ∷ []) [] }
{
    if s.settled {
        return s;
    }
    Summary {
        settled: true,
        main: field(r, word::KIND),
        flagged: has_bit(r, bit::FLAKY),
        ..s
    }
}

// The first run counts, and each is counted.
fn with_run(s: Summary, r: &[u32]) -> Summary
    requires { s.runs < 9223372036854775808 }
    ensures { result ≡ summed_on s [] (r.now ∷ []) }
{
    let k = field(r, word::KIND);
    Summary {
        run: if s.runs == 0 { k } else { s.run },
        runs: s.runs + 1,
        ..s
    }
}

// One record of the case more.
fn with_record(s: Summary, r: &[u32]) -> Summary
    requires { s.runs < 9223372036854775808 }
    ensures { result ≡ summed_by s (r.now ∷ []) }
{
    let k = field(r, word::KIND);
    if (kind::FAILURE <= k) & (k <= kind::SKIPPED) {
        return with_main(s, r);
    }
    if rows::is_run(k) {
        return with_run(s, r);
    }
    s
}

// Of the case that stands before these words (rule S11).
pub fn sum_up(words: &[u32]) -> Summary
    ensures { result ≡ summary (records_in words.now) }
{
    let mut s = Summary {
        settled: false,
        main: 0,
        flagged: false,
        run: 0,
        runs: 0,
    };
    let mut at = 0;
    // while: each turn passes a whole record.
    while rows::stands_here(&words[at..]) {
        let end = at + 32;
        let r = &words[at..end];
        if rows::ends_case(field(r, word::KIND)) {
            return s;
        }
        s = with_record(s, r);
        at = end;
    }
    s
}
