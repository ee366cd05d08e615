// A table as bytes: its numbers, words and bytes put one behind the other into the output area.
#![tactic(auto)]

ghost use Rattle.list_text.specs.inside.Behind.{filled, Puts};
ghost use Rattle.write_words.specs.Bytes.{word_bytes, words_bytes, table_bytes};

use list_text::put;

// A word, its low byte first.
fn put_word(out: &mut [u8], k: Option<usize>, w: usize) -> Option<usize>
    ensures { Puts (filled k out.old) (word_bytes w) (filled result out.new) }
{
    let four = [
        (w % 256) as u8,
        (w / 256 % 256) as u8,
        (w / 65536 % 256) as u8,
        (w / 16777216 % 256) as u8,
    ];
    put(out, k, &four)
}

fn put_words(out: &mut [u8], k: Option<usize>, words: &[u32]) -> Option<usize>
    ensures { Puts (filled k out.old) (words_bytes words.now) (filled result out.new) }
{
    let mut mark = k;
    for w in words {
        mark = put_word(out, mark, *w as usize);
    }
    mark
}

// In the form of rule P1, as rule P5 has it: the numbers of events, attributes and bytes, then the three.
pub fn put_table(
    out: &mut [u8],
    k: Option<usize>,
    events: &[u32],
    attributes: &[u32],
    bytes: &[u8],
) -> Option<usize>
    ensures { Puts (filled k out.old) (table_bytes (record { events = events.now; attributes = attributes.now; bytes = bytes.now })) (filled result out.new) }
{
    let first = put_word(out, k, events.len() / 5);
    let second = put_word(out, first, attributes.len() / 5);
    let third = put_word(out, second, bytes.len());
    let fourth = put_words(out, third, events);
    let fifth = put_words(out, fourth, attributes);
    put(out, fifth, bytes)
}
