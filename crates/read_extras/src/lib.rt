// Extra attributes of suite and case: records directly behind the element's own, which the part `own` begins with.
#![tactic(auto)]

ghost use Rattle.std.specs.Prelude.{◌≡◌, ◌≤◌, ◌+◌, ◌*◌, length};
ghost use Rattle.text_key.specs.of_area.Answer.{gives};
ghost use Rattle.text_key.specs.of_names.Names.{same_bytes};
ghost use Rattle.text_key.specs.of_text.Value.{value_text, checked_of};
ghost use Rattle.read_extra_record.specs.of_tree_record.Record.{text_at};
ghost use Rattle.read_extra_record.specs.of_read_element.inside.Held.{place_at};
ghost use Rattle.read_extra_record.specs.of_read_element.inside.Refines.{areas};
ghost use Rattle.read_extra_record.specs.inside.Promises.{Bounded};
ghost use Rattle.read_extras.specs.inside.Promises.{FindsPlace, PutsExtra, ReadsExtra};

pub use read_extra_record as the_read_extra_record;
use read_extra_record::the_table_parts::bytes_of;
use read_extra_record::the_tree_record::field;
use read_extra_record::{Given, new_extra, old_extra};
use text_key::the_area::wide;
use text_key::the_refusal::Cause;
use text_key::the_text::value::check_value;
use text_key::{cleaned_length, is_cleaned};

// Whether the record's key is the text, of n bytes, that would be stored for `key`: lengths are compared before bytes.
fn is_key(words: &[u32], text: &[u8], key: &[u8], n: usize) -> bool
    requires { n ≡ length (value_text key.now) }
    ensures { result ≡ same_bytes (text_at text.now words.now 2) (value_text key.now) }
{
    let stored = bytes_of(text, wide(field(words, 2)), wide(field(words, 3)));
    stored.len() == n && is_cleaned(stored, key)
}

// The place of the extra with this key among the extras, or their number.
fn place_of(own: &[u32], text: &[u8], extras: usize, key: &[u8]) -> usize
    requires { extras * 32 + 32 ≤ length own.now }
    ensures { result ≡ place_at own.now text.now (value_text key.now) extras 0 }
{
    let n = cleaned_length(key);
    for i in 0..extras {
        let at = i * 32 + 32;
        if is_key(&own[at..], text, key, n) {
            return i;
        }
    }
    extras
}

// The same, where a hint that isn't larger than their number is believed.
fn place_for(own: &[u32], text: &[u8], extras: usize, key: &[u8], hint: usize) -> usize
    requires { extras * 32 + 32 ≤ length own.now }
    ensures { FindsPlace own.now text.now (value_text key.now) extras hint result }
{
    if hint <= extras {
        return hint;
    }
    place_of(own, text, extras, key)
}

fn put_extra(
    kind: u32,
    key: &[u8],
    value: &[u8],
    hint: usize,
    given: Given,
    own: &mut [u32],
    text: &mut [u8],
) -> Result<Given, Cause>
    requires kind_bound { kind ≤ 12 }
    requires tt_value { gives tt ≡ checked_of key.now }
    requires tt_value_2 { gives tt ≡ checked_of value.now }
    requires bounded { Bounded given (areas own.old text.old) }
    ensures { PutsExtra kind key.now value.now hint given (areas own.old text.old) (areas own.new text.new) result }
{
    let extras = given.extras;
    let i = place_for(own, text, extras, key, hint);
    if i < extras {
        return old_extra(value, i, given, own, text);
    }
    new_extra(kind, key, value, given, own, text)
}

// By rules A8 and A9; where it stands among the extras is looked for only without a hint.
pub fn read_extra(
    kind: u32,
    key: &[u8],
    value: &[u8],
    hint: usize,
    given: Given,
    own: &mut [u32],
    text: &mut [u8],
) -> Result<Given, Cause>
    requires kind_bound { kind ≤ 12 }
    requires bounded { Bounded given (areas own.old text.old) }
    ensures { ReadsExtra kind key.now value.now hint given (areas own.old text.old) (areas own.new text.new) result }
{
    check_value(key)?;
    check_value(value)?;
    put_extra(kind, key, value, hint, given, own, text)
}
