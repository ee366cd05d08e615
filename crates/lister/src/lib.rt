// The public listing of a layout: its text, put into an area that the caller lends.
#![tactic(auto)]

ghost use Rattle.std.specs.Prelude.{◌≡◌, true, length, Some};
ghost use Rattle.tree_layout.specs.of_refusal.Refusal.{refused, late};
ghost use Rattle.tree_layout.specs.of_tree_report.Layout.{layout};
ghost use Rattle.list_suites.specs.of_list_text.inside.Behind.{filled, Puts};
ghost use Rattle.list_suites.specs.of_list_text.Listing.{listed, output_of};
ghost use Rattle.list_suites.specs.of_list_sums.inside.Rows.{records_in};
ghost use Rattle.lister.specs.inside.Shown.{whole_shown, report_shown};
ghost use Rattle.lister.specs.Answer.{listing_from};

use list_suites::the_list_sums::rows::stands_here;
use list_suites::the_list_text::put;
pub use list_suites::the_list_values;
use tree_layout::the_area::{least, limit};
use tree_layout::the_refusal::{Cause, Refusal, Verdict, no_refusal, refuse_late};
use tree_layout::the_tree_record::{field, kind, word};
pub use tree_layout::{
    the_fixed, the_names, the_refusal, the_timestamp, the_tree_record, the_uuids,
};

// How many bytes the listing has, or why there is none.
#[derive(Clone, Copy)]
pub struct Listing {
    pub verdict: Verdict,
    pub length: usize,
    pub refusal: Refusal,
}

// By rule L10.
fn put_whole(out: &mut [u8], text: &[u8], r: &[u32], below: &[u32]) -> Option<usize>
    ensures { Puts (filled (Some 0) out.old) (whole_shown text.now r.now (records_in below.now)) (filled result out.new) }
{
    let opened = put(out, Some(0), b"(report");
    let name = list_suites::the_list_values::put_first(out, opened, text, r);
    let counts = list_suites::the_list_values::put_counts(out, name, r);
    let suites = list_suites::put_suites(out, counts, text, below);
    put(out, suites, b")\n")
}

// By rule L6. The report is the first live record; there is one in every layout.
fn put_report(out: &mut [u8], text: &[u8], words: &[u32]) -> Option<usize>
    ensures { Puts (filled (Some 0) out.old) (report_shown text.now (records_in words.now)) (filled result out.new) }
{
    let mut at = 0;
    // while: each turn passes a whole record.
    while stands_here(&words[at..]) {
        let end = at + 32;
        let r = &words[at..end];
        at = end;
        if field(r, word::KIND) < kind::DEAD {
            return put_whole(out, text, r, &words[end..]);
        }
    }
    Some(0)
}

// By rule F13.
fn refuse(cause: Cause) -> Listing
    ensures { result ≡ listing_from (refused (late cause)) }
{
    Listing {
        verdict: Verdict::Refused,
        length: 0,
        refusal: refuse_late(cause),
    }
}

// Puts the listing (rule L5) of a layout at the front of out, and zeros behind it; where it doesn't fit, all of out becomes zero (rules L11
// and L12). That it is a layout isn't looked at.
pub fn list_known(records: &[u32], text: &[u8], out: &mut [u8]) -> Listing
    requires { layout records.now text.now ≡ true }
    ensures value { result ≡ listing_from (listed records.now text.now (length out.old)) }
    ensures out_after { out.new ≡ output_of records.now text.now (length out.old) }
{
    tree_layout::the_area::clear(out);
    let limit = least(records.len(), limit::WORDS);
    let bytes = least(text.len(), limit::BYTES);
    let put = put_report(out, &text[..bytes], &records[..limit]);
    let Some(length) = put else {
        tree_layout::the_area::clear(out);
        return refuse(Cause::OutputFull);
    };
    Listing {
        verdict: Verdict::Accepted,
        length,
        refusal: no_refusal(),
    }
}

// The listing of any areas: what is no layout is refused, and all of out becomes zero (rule L11).
pub fn list(records: &[u32], text: &[u8], out: &mut [u8]) -> Listing
    ensures value { result ≡ listing_from (listed records.now text.now (length out.old)) }
    ensures out_after { out.new ≡ output_of records.now text.now (length out.old) }
{
    if !tree_layout::is_layout(records, text) {
        tree_layout::the_area::clear(out);
        return refuse(Cause::NotLayout);
    }
    list_known(records, text, out)
}
