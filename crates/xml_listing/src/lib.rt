// What comes behind the tokenizer: the public listing of the table that it left.
#![tactic(auto)]

ghost use Rattle.std.specs.Prelude.{◌≡◌, min, length};
ghost use Rattle.public_call.specs.of_area.Area.{zeros, laid};
ghost use Rattle.public_call.specs.of_public_claims.PublicListing.{refused_text};
ghost use Rattle.xml_state.specs.Answer.{result as given_result};
ghost use Rattle.xml_listing.specs.XmlListing.{lent, table_in, listing_for};

pub use public_call as the_public_call;
use public_call::the_clearing::clear_all;
pub use public_call::{the_lister, the_reader};
use public_call::{public_listing, refuse};
pub use xml_state as the_xml_state;
use xml_state::Tokenized;

// The n records, five words each, at the front of an area.
pub fn table_in(words: &[u32], n: u32) -> &[u32]
    ensures { result.now ≡ table_in n words.now }
{
    let m = (n as usize) * 5;
    if m < words.len() {
        return &words[..m];
    }
    words
}

// A refused document.
fn refuse_all(records: &mut [u32], text: &mut [u8], scratch: &mut [u8], out: &mut [u8]) -> usize
    ensures out { out.new ≡ laid (zeros (length out.old)) refused_text }
    ensures count { result ≡ min (length out.old) (length refused_text) }
    ensures records { records.new ≡ zeros (length records.old) }
    ensures text { text.new ≡ zeros (length text.old) }
    ensures scratch { scratch.new ≡ zeros (length scratch.old) }
{
    clear_all(records, text, scratch);
    refuse(out)
}

// The listing of what the tokenizer answered; `events` and `attributes` are the areas that hold its table. Nothing is left in the areas of
// reading (rule N11).
pub fn list_tokens(
    told: Tokenized,
    source: &[u8],
    events: &[u32],
    attributes: &[u32],
    records: &mut [u32],
    text: &mut [u8],
    scratch: &mut [u8],
    out: &mut [u8],
) -> usize
    ensures out { out.new ≡ laid (zeros (length out.old))
        (listing_for (given_result told events.now attributes.now) source.now
        (lent records.old text.old scratch.old out.old)) }
    ensures count { result ≡ min (length out.old)
        (length (listing_for (given_result told events.now attributes.now) source.now
        (lent records.old text.old scratch.old out.old))) }
    ensures records { records.new ≡ zeros (length records.old) }
    ensures text { text.new ≡ zeros (length text.old) }
    ensures scratch { scratch.new ≡ zeros (length scratch.old) }
{
    match told {
        Tokenized::Table(n, k) => public_listing(
            table_in(events, n),
            table_in(attributes, k),
            source,
            records,
            text,
            scratch,
            out,
        ),
        Tokenized::Refused(_, _) => refuse_all(records, text, scratch, out),
    }
}
