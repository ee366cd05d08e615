// Texts that a refusal's line is put together from: lines of a table of texts, values of attributes.
#![tactic(auto)]

ghost use Rattle.std.specs.Prelude.{◌≡◌};
ghost use Rattle.table.specs.Event.{value_at};
ghost use Rattle.explain_lines.specs.Lines.{line_in};

use table::the_area::{first_at, least, wide};
use table::the_table_parts::{bytes_of, word_of};

// The line with i before it, without its newline.
pub fn line_in(text: &[u8], i: usize) -> &[u8]
    ensures { result.now ≡ line_in i text.now }
{
    let mut at = 0;
    for _k in 0..i {
        let n = first_at(&text[at..], b'\n');
        at = least(at + n + 1, text.len());
    }
    let rest = &text[at..];
    let n = first_at(rest, b'\n');
    &rest[..n]
}

// The value of attribute j, no bytes behind the table.
pub fn value_at<'a>(attributes: &[u32], source: &'a [u8], j: usize) -> &'a [u8]
    ensures { result.now ≡ value_at attributes.now source.now j }
{
    let n = attributes.len();
    if n / 5 < j {
        return bytes_of(source, 0, 0);
    }
    let at = j * 5;
    let words = &attributes[at..];
    bytes_of(source, wide(word_of(words, 3)), wide(word_of(words, 4)))
}
