// Reading and listing in one call, and what is printed of it: the public listing of a table.
#![tactic(auto)]

ghost use Rattle.std.specs.Prelude.{◌≡◌, min, length};
ghost use Rattle.reader.specs.of_area.Area.{zeros, laid};
ghost use Rattle.list_cleared.specs.of_lister.Answer.{listing_from};
ghost use Rattle.public_claims.specs.PublicListing.{refused_text};
ghost use Rattle.public_call.specs.Called.{once_into, listing_into};

pub use list_cleared::the_lister;
use list_cleared::the_lister::Listing;
use list_cleared::{list_and_clear, pass_on};
pub use reader as the_reader;
use reader::read;
use reader::the_area::{clear, copy_into};
pub use reader::the_clearing;
use reader::the_refusal::Verdict;

// Reads a table and lists it: the listing at the front of `out`, zeros behind it, or the refusal of the call that refuses, and zeros
// throughout. The tree that it was listed from is gone: records, text and scratch end zero in every case (rule L13).
pub fn read_and_list(
    events: &[u32],
    attributes: &[u32],
    source: &[u8],
    records: &mut [u32],
    text: &mut [u8],
    scratch: &mut [u8],
    out: &mut [u8],
) -> Listing
    ensures answer { result ≡ listing_from
        (once_into events.now attributes.now source.now records.old text.old scratch.old out.old).outcome }
    ensures out { out.new ≡
        (once_into events.now attributes.now source.now records.old text.old scratch.old out.old).output }
    ensures records { records.new ≡
        (once_into events.now attributes.now source.now records.old text.old scratch.old out.old).words }
    ensures text { text.new ≡
        (once_into events.now attributes.now source.now records.old text.old scratch.old out.old).text }
    ensures scratch { scratch.new ≡
        (once_into events.now attributes.now source.now records.old text.old scratch.old out.old).scratch }
{
    let answer = read(events, attributes, source, records, text, scratch);
    let verdict = answer.verdict;
    let refusal = answer.refusal;
    match verdict {
        Verdict::Accepted => list_and_clear(records, text, out),
        Verdict::Refused => pass_on(refusal, out),
    }
}

// Puts `(refused)`; of a shorter area the part that fits (rule L12).
pub fn refuse(out: &mut [u8]) -> usize
    ensures area { out.new ≡ laid (zeros (length out.old)) refused_text }
    ensures count { result ≡ min (length out.old) (length refused_text) }
{
    clear(out);
    let put = copy_into(out, b"(refused)\n");
    match put {
        Some(n) => n,
        None => out.len(),
    }
}

// The public listing of a table, at the front of `out`, whose other bytes become zero, or `(refused)`: how many bytes of `out` it takes
// (rules L3 and L4).
pub fn public_listing(
    events: &[u32],
    attributes: &[u32],
    source: &[u8],
    records: &mut [u32],
    text: &mut [u8],
    scratch: &mut [u8],
    out: &mut [u8],
) -> usize
    ensures out { out.new ≡ laid (zeros (length out.old))
        (listing_into events.now attributes.now source.now records.old text.old scratch.old out.old) }
    ensures count { result ≡ min (length out.old)
        (length (listing_into events.now attributes.now source.now records.old text.old scratch.old out.old)) }
    ensures records { records.new ≡ zeros (length records.old) }
    ensures text { text.new ≡ zeros (length text.old) }
    ensures scratch { scratch.new ≡ zeros (length scratch.old) }
{
    let listing = read_and_list(events, attributes, source, records, text, scratch, out);
    let verdict = listing.verdict;
    match verdict {
        Verdict::Accepted => listing.length,
        Verdict::Refused => refuse(out),
    }
}
