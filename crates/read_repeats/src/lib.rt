// Repeated keys of an element.
#![tactic(auto)]

ghost use Rattle.std.specs.Prelude.{◌≡◌, not, ◌&&◌, ◌≤◌, ◌*◌, ◌-◌, length, get_or};
ghost use Rattle.read_element.specs.of_names.Names.{same_bytes};
ghost use Rattle.read_element.specs.of_table.Event.{part, attributes_from};
ghost use Rattle.read_element.specs.Attributes.{among};
ghost use Rattle.read_element.specs.inside.Held.{keys_of};
ghost use Rattle.read_repeats.specs.inside.Words.{attribute_in};

use read_element::the_area::wide;
use read_element::the_names::same;
use read_element::the_table_parts::bytes_of;
pub use read_element::{the_area, the_names, the_read_keys, the_refusal, the_table_parts};

// Whether the attribute that `words` begins with has this key.
fn has_key(words: &[u32], source: &[u8], key: &[u8]) -> bool
    requires { 5 ≤ length words.now }
    ensures { result ≡ same_bytes (part source.now (get_or words.now 1 0) (get_or words.now 2 0)) key.now }
{
    same(bytes_of(source, wide(words[1]), wide(words[2])), key)
}

// Whether an attribute from number `first` to before number j has this key.
fn is_among(attributes: &[u32], source: &[u8], first: usize, j: usize, key: &[u8]) -> bool
    requires { j * 5 ≤ length attributes.now }
    ensures { result ≡ among key.now (keys_of (attributes_from attributes.now source.now (j - first) first)) }
{
    for i in first..j {
        let at = i * 5;
        if has_key(&attributes[at..], source, key) {
            return true;
        }
    }
    false
}

// Whether an attribute from number `first` to before number j has the key of the one that `words` begins with (rule A3). Where
// the keys are known to be free of repeats they are not searched again.
pub fn is_repeated(
    attributes: &[u32],
    source: &[u8],
    first: usize,
    j: usize,
    words: &[u32],
    free: bool,
) -> bool
    requires j_in_bounds { j * 5 ≤ length attributes.now }
    requires in_bounds { 5 ≤ length words.now }
    ensures { result ≡ (not free && among (attribute_in words.now source.now).key (keys_of (attributes_from attributes.now source.now (j - first) first))) }
{
    if free {
        return false;
    }
    let key = bytes_of(source, wide(words[1]), wide(words[2]));
    is_among(attributes, source, first, j, key)
}
