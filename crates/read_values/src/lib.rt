// An attribute's value, read into the element's record.
#![tactic(auto)]

ghost use Rattle.std.specs.Prelude.{◌≡◌, ◌++◌, ◌≤◌, ◌-◌, length, take, drop};
ghost use Rattle.tree_values.specs.of_tree_record.Record.{marked};
ghost use Rattle.tree_values.specs.of_tree_put.Put.{put_text, put_count_of, put_uuid, put_moment, put_time};
ghost use Rattle.read_element.specs.of_integer.Integer.{integer_of};
ghost use Rattle.tree_values.specs.of_uuids.Uuid.{uuid_of};
ghost use Rattle.tree_values.specs.of_timestamp.Timestamp.{timestamp_of};
ghost use Rattle.read_element.specs.of_time.Time.{time_of};
ghost use Rattle.read_element.specs.of_text.Value.{value_of, value_laid};
ghost use Rattle.read_element.specs.Attributes.{keep};
ghost use Rattle.read_element.specs.inside.Held.{unmoved, moved, putting};
ghost use Rattle.read_values.specs.inside.Answers.{took_answer};

use read_element::the_integer::integer_of;
pub use read_element::the_read_keys;
use read_element::the_text::kept::Unkept;
use read_element::the_text::value::store_value;
use read_element::the_time::read::read_time;
pub use tree_values::the_refusal;
use tree_values::the_refusal::Cause;
use tree_values::the_timestamp::timestamp_of;
use tree_values::the_tree_put::{put_count, put_text};
use tree_values::the_tree_record::put_bit;
use tree_values::the_uuids::uuid_of;
use tree_values::{put_moment, put_time, put_uuid};

// Each function answers where the texts end now, or why the value is refused. By rules X1 and M4.
pub fn read_text(
    value: &[u8],
    o: usize,
    k: u32,
    fill: usize,
    words: &mut [u32],
    text: &mut [u8],
) -> Result<usize, Cause>
    requires fill_in_bounds { fill ≤ length text.old }
    requires text_len_bound { length text.old ≤ 16777216 }
    ensures result_value { took_answer result ≡ moved fill (value_of (length text.old - fill) value.now) }
    ensures words_after { words.new ≡ putting (put_text o k fill) (value_of (length text.old - fill) value.now) words.old }
    ensures text_after { text.new ≡ take fill text.old ++ value_laid (drop fill text.old) value.now }
{
    match store_value(&mut text[fill..], value) {
        Ok(n) => {
            put_text(words, o, k, fill as u32, n as u32);
            Ok(fill + n)
        }
        Err(Unkept::Full) => Err(Cause::TextFull),
        Err(Unkept::NotUtf8) => Err(Cause::NotUtf8),
        Err(Unkept::BadReference) => Err(Cause::BadReference),
        Err(Unkept::UnknownName) => Err(Cause::UnknownEntity),
    }
}

pub fn read_count(value: &[u8], o: usize, fill: usize, words: &mut [u32]) -> Result<usize, Cause>
    ensures result_value { took_answer result ≡ unmoved fill (integer_of value.now) }
    ensures words_after { words.new ≡ putting (put_count_of o) (integer_of value.now) words.old }
{
    let n = integer_of(value)?;
    put_count(words, o, n);
    Ok(fill)
}

pub fn read_number(
    value: &[u8],
    o: usize,
    k: u32,
    fill: usize,
    words: &mut [u32],
) -> Result<usize, Cause>
    ensures result_value { took_answer result ≡ unmoved fill (integer_of value.now) }
    ensures words_after { words.new ≡ putting (λ n x. marked k (put_count_of o n x)) (integer_of value.now) words.old }
{
    let to = read_count(value, o, fill, words)?;
    put_bit(words, k);
    Ok(to)
}

pub fn read_uuid(value: &[u8], fill: usize, words: &mut [u32]) -> Result<usize, Cause>
    ensures result_value { took_answer result ≡ unmoved fill (uuid_of value.now) }
    ensures words_after { words.new ≡ putting put_uuid (uuid_of value.now) words.old }
{
    let w = uuid_of(value)?;
    put_uuid(words, w);
    Ok(fill)
}

pub fn read_timestamp(
    value: &[u8],
    kept: bool,
    fill: usize,
    words: &mut [u32],
) -> Result<usize, Cause>
    ensures result_value { took_answer result ≡ unmoved fill (timestamp_of value.now) }
    ensures words_after { words.new ≡ putting (λ m x. keep kept (put_moment m x) x) (timestamp_of value.now) words.old }
{
    let m = timestamp_of(value)?;
    if kept {
        put_moment(words, m);
    }
    Ok(fill)
}

pub fn read_duration(
    value: &[u8],
    kept: bool,
    fill: usize,
    words: &mut [u32],
) -> Result<usize, Cause>
    ensures result_value { took_answer result ≡ unmoved fill (time_of value.now) }
    ensures words_after { words.new ≡ putting (λ t x. keep kept (put_time t x) x) (time_of value.now) words.old }
{
    let (seconds, nanos) = read_time(value)?;
    if kept {
        put_time(words, seconds, nanos);
    }
    Ok(fill)
}
