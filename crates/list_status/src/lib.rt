// The fields that show what a case's status elements come to.
#![tactic(auto)]

ghost use Rattle.std.specs.Prelude.{◌≡◌, [], ◌∷◌};
ghost use Rattle.list_values.specs.of_digits.Digits.{decimal};
ghost use Rattle.list_values.specs.of_list_text.inside.Behind.{filled, Puts};
ghost use Rattle.list_values.specs.of_list_text.Listing.{status_word, kind_word, fields};
ghost use Rattle.list_sums.specs.inside.Summed.{is_skipped_by, status_by, is_flaky_by, kind_by, runs_by};

pub use list_sums as the_list_sums;
use list_sums::Summary;
pub use list_values as the_list_values;
use list_values::the_list_text::put;
use list_values::the_tree_record::kind;
pub use list_values::{the_area, the_list_text, the_tree_record};

pub fn is_skipped(s: Summary) -> bool
    ensures { result ≡ is_skipped_by s }
{
    s.settled & (s.main == kind::SKIPPED)
}

fn is_flaky(s: Summary) -> bool
    ensures { result ≡ is_flaky_by s }
{
    if !s.settled {
        return true;
    }
    if s.runs == 0 {
        return s.flagged;
    }
    s.run <= kind::FLAKY_ERROR
}

// By rule S10.
fn runs_of(s: Summary) -> usize
    ensures { result ≡ runs_by s }
{
    if is_skipped(s) { 0 } else { s.runs }
}

fn put_main(out: &mut [u8], k: Option<usize>, s: Summary) -> Option<usize>
    ensures { Puts (filled k out.old) (32 ∷ status_word (status_by s)) (filled result out.new) }
{
    if !s.settled {
        return put(out, k, b" success");
    }
    let main = s.main;
    match main {
        kind::SKIPPED => put(out, k, b" skipped"),
        kind::FAILURE => put(out, k, b" failure"),
        _ => put(out, k, b" error"),
    }
}

// By rule S11.
fn put_kind(out: &mut [u8], k: Option<usize>, s: Summary) -> Option<usize>
    ensures { Puts (filled k out.old) (32 ∷ kind_word (kind_by s)) (filled result out.new) }
{
    if is_skipped(s) {
        return put(out, k, b" none");
    }
    if is_flaky(s) {
        return put(out, k, b" flaky");
    }
    put(out, k, b" rerun")
}

// Status, kind of the runs, and their number (rule S10).
pub fn put_status(out: &mut [u8], k: Option<usize>, s: Summary) -> Option<usize>
    ensures { Puts (filled k out.old) (fields (status_word (status_by s) ∷ kind_word (kind_by s) ∷ decimal (runs_by s) ∷ [])) (filled result out.new) }
{
    let main = put_main(out, k, s);
    let kind = put_kind(out, main, s);
    list_values::put_number(out, kind, runs_of(s) as u64)
}
