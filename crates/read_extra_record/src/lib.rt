// The record of an extra attribute, whose key and value are good: a new one, or an old one with a new value. They stand directly
// behind the element's own record, which the part `own` begins with.
#![tactic(auto)]

ghost use Rattle.std.specs.Prelude.{◌≡◌, ◌++◌, ◌≤◌, ◌<◌, ◌+◌, ◌-◌, ◌*◌, length, take, drop};
ghost use Rattle.read_element.specs.of_area.Answer.{gives};
ghost use Rattle.read_element.specs.of_area.Area.{placing, laid};
ghost use Rattle.read_element.specs.of_text.Value.{value_text, checked_of};
ghost use Rattle.read_element.specs.inside.Held.{moved, extra_words};
ghost use Rattle.read_element.specs.inside.Refines.{areas};
ghost use Rattle.read_extra_record.specs.inside.Answers.{laid_answer};
ghost use Rattle.read_extra_record.specs.inside.Promises.{Bounded, ReplacesExtra, AddsExtra};
ghost use Rattle.read_element.specs.of_refusal.declared.Cause.TheVariants as cause;

use read_element::the_refusal::Cause;
use read_element::the_text::value::store_value;
use read_element::the_tree_put::{put_pair, put_text};
use read_element::the_tree_record::put_field;
pub use read_element::{the_refusal, the_table_parts, the_tree_record};

// The number of extras and the end of the texts.
#[derive(Clone, Copy)]
pub struct Given {
    pub extras: usize,
    pub fill: usize,
}

// Stores a value whose form is known to be good: where it ends, or that the text area is too short.
fn lay(value: &[u8], fill: usize, text: &mut [u8]) -> Result<usize, Cause>
    requires tt_value { gives tt ≡ checked_of value.now }
    requires fill_in_bounds { fill ≤ length text.old }
    ensures result_value { laid_answer result ≡ moved fill (placing cause.TextFull (length text.old - fill) (value_text value.now)) }
    ensures text_after { text.new ≡ take fill text.old ++ laid (drop fill text.old) (value_text value.now) }
{
    match store_value(&mut text[fill..], value) {
        Ok(n) => Ok(fill + n),
        Err(_) => Err(Cause::TextFull),
    }
}

// The value of extra i is replaced (rule A8); its key isn't stored again (rule M5).
pub fn old_extra(
    value: &[u8],
    i: usize,
    given: Given,
    own: &mut [u32],
    text: &mut [u8],
) -> Result<Given, Cause>
    requires tt_value { gives tt ≡ checked_of value.now }
    requires i_lt_extras { i < given.extras }
    requires bounded { Bounded given (areas own.old text.old) }
    ensures { ReplacesExtra value.now i given (areas own.old text.old) (areas own.new text.new) result }
{
    let fill = given.fill;
    let end = lay(value, fill, text)?;
    let at = i * 32 + 32;
    put_pair(&mut own[at..], 4, fill as u32, (end - fill) as u32);
    Ok(Given { fill: end, ..given })
}

// A blank record of a kind, with its key from `start` to before `middle` and its value from there to before `end`.
fn put_extra_words(words: &mut [u32], kind: u32, start: usize, middle: usize, end: usize)
    requires start_le_middle { start ≤ middle }
    requires middle_le_end { middle ≤ end }
    requires end_bound { end ≤ 16777216 }
    ensures { words.new ≡ extra_words kind start (middle - start) middle (end - middle) words.old }
{
    put_field(words, 0, kind);
    put_text(words, 2, 0, start as u32, (middle - start) as u32);
    put_text(words, 4, 1, middle as u32, (end - middle) as u32);
}

// Behind the other extras: a record (rule M2), then room for key and value, in the order of rule A9.
pub fn new_extra(
    kind: u32,
    key: &[u8],
    value: &[u8],
    given: Given,
    own: &mut [u32],
    text: &mut [u8],
) -> Result<Given, Cause>
    requires kind_bound { kind ≤ 12 }
    requires tt_value { gives tt ≡ checked_of key.now }
    requires tt_value_2 { gives tt ≡ checked_of value.now }
    requires bounded { Bounded given (areas own.old text.old) }
    ensures { AddsExtra kind key.now value.now given (areas own.old text.old) (areas own.new text.new) result }
{
    let at = given.extras * 32 + 32;
    if own.len() < at + 32 {
        return Err(Cause::RecordsSpent);
    }
    let start = given.fill;
    let middle = lay(key, start, text)?;
    let end = lay(value, middle, text)?;
    put_extra_words(&mut own[at..], kind + 11, start, middle, end);
    Ok(Given {
        extras: given.extras + 1,
        fill: end,
    })
}
