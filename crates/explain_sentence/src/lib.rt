// The sentence of a cause, put behind what the output area holds.
#![tactic(auto)]

ghost use Rattle.std.specs.Prelude.{◌≡◌};
ghost use Rattle.explain_text.specs.of_list_text.inside.Behind.{filled, Puts};
ghost use Rattle.explain_text.specs.Sentences.{sentence};
ghost use Rattle.explain_sentence.specs.inside.Place.{place_of, place_by};

use explain_lines::line_in;
use explain_text::the_area::limit;
use explain_text::the_list_text::put;
use explain_text::the_refusal::Cause;
pub use explain_text::{the_area, the_list_text, the_refusal, the_time_text};

// The line of a cause's sentence in the table below.
fn place_of(cause: Cause) -> usize
    ensures { result ≡ place_of cause }
{
    match cause {
        Cause::XmlFault => 0,
        Cause::EofInSkip => 1,
        Cause::NotUtf8 => 2,
        Cause::BadInteger => 3,
        Cause::BadTimestamp => 4,
        Cause::BadTime => 5,
        Cause::BadUuid => 6,
        Cause::MissingAttribute => 7,
        Cause::MissingReport => 8,
        Cause::EofInElement => 9,
        Cause::StatusRule => 10,
        Cause::UnknownEntity => 11,
        Cause::FaultyAttribute => 12,
        Cause::RepeatedKey => 13,
        Cause::BadReference => 14,
        Cause::BadTable => 15,
        Cause::RecordsSpent => 16,
        Cause::TextFull => 17,
        Cause::ScratchFull => 18,
        Cause::NotLayout => 19,
        Cause::OutputFull => 20,
        Cause::CountLimit => 21,
        Cause::TooManyCases => 26,
        Cause::NoSuchReport => 27,
        Cause::TooManyReports => 28,
        Cause::TimeLimit => 29,
    }
}

// Another sentence stands for an area that is too short from the limits' size on.
fn place_by(place: usize, lent: usize) -> usize
    ensures { result ≡ place_by place lent }
{
    if (place == 16) & (lent >= limit::WORDS) {
        return 22;
    }
    if (place == 17) & (lent >= limit::BYTES) {
        return 23;
    }
    if (place == 18) & (lent >= limit::BYTES) {
        return 24;
    }
    if (place == 20) & (lent >= limit::BYTES) {
        return 25;
    }
    place
}

// By rules E1 and E6.
pub fn put_sentence(out: &mut [u8], k: Option<usize>, cause: Cause, lent: usize) -> Option<usize>
    ensures { Puts (filled k out.old) (sentence cause lent) (filled result out.new) }
{
    let sentences = b"the XML is broken here\n\
        the report ends inside an element that is passed over\n\
        the text is not UTF-8\n\
        a count must be digits, with or without a plus sign before them, and at most 18446744073709551615\n\
        a timestamp must be a date, a time below second 60 and an offset, as in 2024-02-29T23:59:59.5+01:00 or 2024-02-29T22:59:59Z, with at most nine digits behind the point\n\
        a time must be digits with at most nine behind the point, under 8388608 seconds\n\
        a UUID must be 32 hexadecimal digits with four hyphens, as in 01234567-89ab-cdef-0123-456789abcdef\n\
        this attribute is missing\n\
        the report ends before a testsuites element begins\n\
        the report ends inside this element\n\
        a case may have only one of failure, error and skipped; reruns go only with a failure or error; flaky runs go with neither reruns nor skipped\n\
        this reference is unknown: only &amp; &lt; &gt; &apos; &quot; and numbers, as in &#65;, are known\n\
        an attribute is malformed\n\
        an attribute is given twice\n\
        an ampersand must begin &amp; &lt; &gt; &apos; &quot; or the number of an XML character, as in &#65; or &#x41;\n\
        the event table is malformed or above the limits\n\
        the area for records is too short\n\
        the area for texts is too short\n\
        the area for gathering text is too short\n\
        the areas hold no report that this call fits\n\
        the area for output is too short\n\
        a count would pass 18446744073709551615\n\
        the report has more than 65536 records\n\
        the report's texts are longer than 16777216 bytes\n\
        a gathered text is longer than 16777216 bytes\n\
        an area for output is too short, or the table has more than 65536 events, 65536 attributes or 16777216 bytes\n\
        a report to order has at most 4096 cases\n\
        failures, errors, skipped and flaky cases together are more than the cases\n\
        a release sheet takes the counts of at most 4096 reports\n\
        the times of the two reports together reach 8388608 seconds";
    put(out, k, line_in(sentences, place_by(place_of(cause), lent)))
}
