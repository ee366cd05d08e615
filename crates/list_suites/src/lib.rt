// The suites of the public listing: the text of an element is put from its record and the words behind it. A loop along the
// records ends once a text didn't fit.
#![tactic(auto)]

ghost use Rattle.list_case.specs.of_list_text.inside.Behind.{filled, Puts};
ghost use Rattle.list_case.specs.of_list_sums.inside.Rows.{records_in};
ghost use Rattle.list_suites.specs.inside.Shown.{cases_shown, suite_shown, suites_shown};

use list_case::the_list_sums::rows::stands_here;
use list_case::the_list_text::put;
use list_case::the_tree_record::{field, kind, word};
pub use list_case::{the_list_sums, the_list_text, the_list_values};

// The cases of the suite that stands before these words.
fn put_cases(out: &mut [u8], k: Option<usize>, text: &[u8], words: &[u32]) -> Option<usize>
    ensures { Puts (filled k out.old) (cases_shown text.now (records_in words.now)) (filled result out.new) }
{
    let mut at = 0;
    let mut mark = k;
    // while: each turn passes a whole record.
    while list_case::the_list_text::is_open(mark) & stands_here(&words[at..]) {
        let end = at + 32;
        let r = &words[at..end];
        let here = field(r, word::KIND);
        at = end;
        if here == kind::SUITE {
            return mark;
        }
        if here == kind::CASE {
            mark = list_case::put_case(out, mark, text, r, &words[end..]);
        }
    }
    mark
}

// By rule L6.
fn put_suite(
    out: &mut [u8],
    k: Option<usize>,
    text: &[u8],
    r: &[u32],
    below: &[u32],
) -> Option<usize>
    ensures { Puts (filled k out.old) (suite_shown text.now r.now (records_in below.now)) (filled result out.new) }
{
    let opened = put(out, k, b"\n(suite");
    let name = list_case::the_list_values::put_name(out, opened, text, r);
    let counts = list_case::the_list_values::put_counts(out, name, r);
    let cases = put_cases(out, counts, text, below);
    put(out, cases, b")")
}

pub fn put_suites(out: &mut [u8], k: Option<usize>, text: &[u8], words: &[u32]) -> Option<usize>
    ensures { Puts (filled k out.old) (suites_shown text.now (records_in words.now)) (filled result out.new) }
{
    let mut at = 0;
    let mut mark = k;
    // while: each turn passes a whole record.
    while list_case::the_list_text::is_open(mark) & stands_here(&words[at..]) {
        let end = at + 32;
        let r = &words[at..end];
        at = end;
        if field(r, word::KIND) == kind::SUITE {
            mark = put_suite(out, mark, text, r, &words[end..]);
        }
    }
    mark
}
