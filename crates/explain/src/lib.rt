// A refusal in words: one line, put into an area that the caller lends. It may hold a name, which is private text.
#![tactic(auto)]

ghost use Rattle.std.specs.Prelude.{◌≡◌, length, Some};
ghost use Rattle.explain_sentence.specs.of_refusal.Refusal.{refused, late};
ghost use Rattle.explain_sentence.specs.of_list_text.inside.Behind.{filled, Puts};
ghost use Rattle.explain_sentence.specs.of_explain_text.Explanation.{line_of, explained, explanation_in};
ghost use Rattle.explain.specs.Answer.{explained_from};

use explain_place::{put_path, put_place};
use explain_sentence::put_sentence;
use explain_sentence::the_list_text::{put, put_decimal};
use explain_sentence::the_refusal::{Cause, Refusal, Verdict, no_refusal, number_of, refuse_late};
pub use explain_sentence::the_time_text;

// How many bytes the line has, or why there is none.
#[derive(Clone, Copy)]
pub struct Explained {
    pub verdict: Verdict,
    pub length: usize,
    pub refusal: Refusal,
}

fn put_line(
    out: &mut [u8],
    events: &[u32],
    attributes: &[u32],
    source: &[u8],
    refusal: Refusal,
    lent: usize,
) -> Option<usize>
    ensures { Puts (filled (Some 0) out.old) (line_of events.now attributes.now source.now refusal lent) (filled result out.new) }
{
    let cause = refusal.cause;
    let path = refusal.path;
    let opened = put(out, Some(0), b"refused ");
    let number = put_decimal(out, opened, number_of(cause) as u64);
    let place = put_path(out, number, events, attributes, source, path);
    let colon = put(out, place, b": ");
    let sentence = put_sentence(out, colon, cause, lent);
    let table = put_place(out, sentence, refusal.event, refusal.attribute);
    put(out, table, b"\n")
}

fn refuse(cause: Cause) -> Explained
    ensures { result ≡ explained_from (refused (late cause)) }
{
    Explained {
        verdict: Verdict::Refused,
        length: 0,
        refusal: refuse_late(cause),
    }
}

// Puts the line at the front of out, and zeros behind it; where it doesn't fit all of out becomes zero (rules E1 and E5). `lent` is the
// length of the area that was too short, with 12 in words, with 13, 14 and 16 in bytes (rule E6); else it doesn't count.
pub fn explain(
    refusal: Refusal,
    lent: usize,
    events: &[u32],
    attributes: &[u32],
    source: &[u8],
    out: &mut [u8],
) -> Explained
    ensures value { result ≡ explained_from (explained events.now attributes.now source.now refusal lent (length out.old)) }
    ensures out_after { out.new ≡ explanation_in events.now attributes.now source.now refusal lent (length out.old) }
{
    explain_sentence::the_area::clear(out);
    let put = put_line(out, events, attributes, source, refusal, lent);
    let Some(length) = put else {
        explain_sentence::the_area::clear(out);
        return refuse(Cause::OutputFull);
    };
    Explained {
        verdict: Verdict::Accepted,
        length,
        refusal: no_refusal(),
    }
}
