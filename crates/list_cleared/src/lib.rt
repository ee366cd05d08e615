// What comes behind reading in one call with it: the listing of the tree, which is cleared, or reading's refusal, passed on.
#![tactic(auto)]

ghost use Rattle.std.specs.Prelude.{◌≡◌, true, length};
ghost use Rattle.clearing.specs.of_area.Area.{zeros};
ghost use Rattle.clearing.specs.of_refusal.declared.Verdict.TheVariants.{Refused as IsRefused};
ghost use Rattle.lister.specs.of_tree_report.Layout.{layout};
ghost use Rattle.lister.specs.of_list_text.Listing.{listed, output_of};
ghost use Rattle.lister.specs.Answer.{listing_from};

use clearing::clear_tree;
use clearing::the_area::clear;
use clearing::the_refusal::{Refusal, Verdict};
pub use lister as the_lister;
use lister::{Listing, list_known};

// The tree is listed and then cleared, also where `out` is too short (rule L13). Reading left it, so it is a layout.
pub fn list_and_clear(records: &mut [u32], text: &mut [u8], out: &mut [u8]) -> Listing
    requires { layout records.old text.old ≡ true }
    ensures text { text.new ≡ zeros (length text.old) }
    ensures records { records.new ≡ zeros (length records.old) }
    ensures answer { result ≡ listing_from (listed records.old text.old (length out.old)) }
    ensures out { out.new ≡ output_of records.old text.old (length out.old) }
{
    let listing = list_known(records, text, out);
    clear_tree(records, text);
    listing
}

// The refusal of reading, whole; there is no listing (rule L13).
pub fn pass_on(refusal: Refusal, out: &mut [u8]) -> Listing
    ensures answer { result ≡ record { verdict = IsRefused; length = 0; refusal = refusal } }
    ensures out { out.new ≡ zeros (length out.old) }
{
    clear(out);
    Listing {
        verdict: Verdict::Refused,
        length: 0,
        refusal,
    }
}
