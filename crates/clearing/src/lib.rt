// The areas that a call was lent, cleared together: a report's tree, and a table.
#![tactic(auto)]

ghost use Rattle.std.specs.Prelude.{◌≡◌, length};
ghost use Rattle.area.specs.Area.{zeros};

pub use area as the_area;
pub use area::the_refusal;
use area::{clear, clear_words};

// Before reading (rule M11). Of scratch reading looks only at what it put there itself.
pub fn clear_tree(words: &mut [u32], bytes: &mut [u8])
    ensures words_after { words.new ≡ zeros (length words.old) }
    ensures bytes_after { bytes.new ≡ zeros (length bytes.old) }
{
    clear_words(words);
    clear(bytes);
}

// The areas of reading, at a refusal (rule F13).
pub fn clear_all(records: &mut [u32], text: &mut [u8], scratch: &mut [u8])
    ensures records_after { records.new ≡ zeros (length records.old) }
    ensures text_after { text.new ≡ zeros (length text.old) }
    ensures scratch_after { scratch.new ≡ zeros (length scratch.old) }
{
    clear_words(records);
    clear(text);
    clear(scratch);
}

// The areas of writing, before it and at a refusal (rules W13 and F13).
pub fn clear_table(events: &mut [u32], attributes: &mut [u32], bytes: &mut [u8])
    ensures events_after { events.new ≡ zeros (length events.old) }
    ensures attributes_after { attributes.new ≡ zeros (length attributes.old) }
    ensures bytes_after { bytes.new ≡ zeros (length bytes.old) }
{
    clear_words(events);
    clear_words(attributes);
    clear(bytes);
}
