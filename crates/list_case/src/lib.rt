// A case of the public listing, from its record and the words behind it.
#![tactic(auto)]

ghost use Rattle.list_status.specs.of_list_text.Listing.{run_text};
ghost use Rattle.list_status.specs.of_list_text.inside.Behind.{filled, Puts};
ghost use Rattle.list_status.specs.of_list_sums.inside.Rows.{records_in};
ghost use Rattle.list_status.specs.of_list_sums.inside.Summed.{run_listed};
ghost use Rattle.list_case.specs.inside.Shown.{run_opened, runs_shown, case_opened, case_shown};

use list_status::the_list_sums::rows;
use list_status::the_list_text::put;
use list_status::the_tree_record::{field, kind, word};
pub use list_status::{the_area, the_list_sums, the_list_text, the_list_values, the_tree_record};

// A run's line, up to its kind.
fn put_run_kind(out: &mut [u8], k: Option<usize>, run: u32) -> Option<usize>
    ensures { Puts (filled k out.old) (run_opened run) (filled result out.new) }
{
    if (run == kind::FLAKY_FAILURE) | (run == kind::RERUN_FAILURE) {
        return put(out, k, b"\n(run failure");
    }
    put(out, k, b"\n(run error")
}

// By rule L7.
fn put_run(out: &mut [u8], k: Option<usize>, r: &[u32]) -> Option<usize>
    ensures { Puts (filled k out.old) (run_text (run_listed r.now)) (filled result out.new) }
{
    let opened = put_run_kind(out, k, field(r, word::KIND));
    let time = list_status::the_list_values::put_time(out, opened, r);
    put(out, time, b")")
}

// The runs of the case that stands before these words.
fn put_runs(out: &mut [u8], k: Option<usize>, words: &[u32]) -> Option<usize>
    ensures { Puts (filled k out.old) (runs_shown (records_in words.now)) (filled result out.new) }
{
    let mut at = 0;
    let mut mark = k;
    // while: each turn passes a whole record.
    while list_status::the_list_text::is_open(mark) & rows::stands_here(&words[at..]) {
        let end = at + 32;
        let r = &words[at..end];
        let here = field(r, word::KIND);
        at = end;
        if rows::ends_case(here) {
            return mark;
        }
        if rows::is_run(here) {
            mark = put_run(out, mark, r);
        }
    }
    mark
}

// A case's line, up to its time.
fn put_case_line(out: &mut [u8], k: Option<usize>, text: &[u8], r: &[u32]) -> Option<usize>
    ensures { Puts (filled k out.old) (case_opened text.now r.now) (filled result out.new) }
{
    let opened = put(out, k, b"\n(case");
    let name = list_status::the_list_values::put_name(out, opened, text, r);
    let classname = list_status::the_list_values::put_classname(out, name, text, r);
    list_status::the_list_values::put_time(out, classname, r)
}

// By rules L5 and L7.
pub fn put_case(
    out: &mut [u8],
    k: Option<usize>,
    text: &[u8],
    r: &[u32],
    below: &[u32],
) -> Option<usize>
    ensures { Puts (filled k out.old) (case_shown text.now r.now (records_in below.now)) (filled result out.new) }
{
    let s = list_status::the_list_sums::sum_up(below);
    let line = put_case_line(out, k, text, r);
    let counted = list_status::put_status(out, line, s);
    if list_status::is_skipped(s) {
        return put(out, counted, b")");
    }
    let runs = put_runs(out, counted, below);
    put(out, runs, b")")
}
