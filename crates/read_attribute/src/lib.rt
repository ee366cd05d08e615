// One attribute of an element: its key, then its value by the key's role.
#![tactic(auto)]

ghost use Rattle.std.specs.Prelude.{◌≡◌, ◌<◌, ◌≤◌, ◌+◌, ◌*◌, ◌^◌, length};
ghost use Rattle.read_repeats.specs.of_read_element.inside.Refines.{tagged, areas};
ghost use Rattle.read_repeats.specs.inside.Words.{attribute_in};
ghost use Rattle.read_extras.specs.of_read_extra_record.inside.Promises.{Bounded};
ghost use Rattle.read_attribute.specs.inside.Steps.{taken_step, gave_step};
ghost use Rattle.read_attribute.specs.inside.Promises.{ReadsAttribute, StepsAttribute};

use read_extras::read_extra;
pub use read_extras::the_read_extra_record;
use read_extras::the_read_extra_record::Given;
pub use read_fault as the_read_fault;
use read_fault::{Fault, refused_at};
use read_repeats::is_repeated;
use read_repeats::the_area::wide;
use read_repeats::the_names::key_of;
use read_repeats::the_read_keys::{Role, role_of};
use read_repeats::the_refusal::Cause;
use read_repeats::the_table_parts::bytes_of;
use read_role::read_value;

// Attributes from number `first` to before number `end`.
#[derive(Clone, Copy)]
pub struct Range {
    pub first: usize,
    pub end: usize,
}

fn taken(took: Result<usize, Cause>, given: Given, key: usize, j: usize) -> Result<Given, Fault>
    requires key_bound { key < 2 ^ 32 }
    requires j_bound { j < 2 ^ 32 }
    ensures { result ≡ taken_step took given key j }
{
    match took {
        Ok(fill) => Ok(Given { fill, ..given }),
        Err(cause) => Err(Fault {
            cause,
            key: key as u32,
            attribute: j as u32,
        }),
    }
}

// What is refused in an extra has the element's path alone (rule A11).
fn gave(found: Result<Given, Cause>, j: usize) -> Result<Given, Fault>
    requires { j < 2 ^ 32 }
    ensures { result ≡ gave_step found j }
{
    found.map_err(|cause| refused_at(cause, j))
}

// Attribute j, whose words are `words`, and whose key is good.
fn read_attribute(
    kind: u32,
    words: &[u32],
    j: usize,
    source: &[u8],
    hint: usize,
    given: Given,
    own: &mut [u32],
    text: &mut [u8],
) -> Result<Given, Fault>
    requires in_bounds { 5 ≤ length words.now }
    requires j_bound { j < 2 ^ 32 }
    requires kind_bound { kind ≤ 12 }
    requires bounded { Bounded given (areas own.old text.old) }
    ensures { ReadsAttribute kind (attribute_in words.now source.now) j hint given
        (areas own.old text.old) (areas own.new text.new) result }
{
    let name = bytes_of(source, wide(words[1]), wide(words[2]));
    let value = bytes_of(source, wide(words[3]), wide(words[4]));
    let key = key_of(name);
    let role = role_of(kind, key);
    if let Role::Extra = role {
        return gave(read_extra(kind, name, value, hint, given, own, text), j);
    }
    let fill = given.fill;
    taken(read_value(role, value, fill, own, text), given, key, j)
}

// Attribute j by its words (rule T2): its mark (rule A2), then a repeated key (rule A3), then key and value.
pub fn step_attribute(
    kind: u32,
    attributes: &[u32],
    source: &[u8],
    range: Range,
    free: bool,
    hint: usize,
    j: usize,
    given: Given,
    own: &mut [u32],
    text: &mut [u8],
) -> Result<Given, Fault>
    requires first_le_j { range.first ≤ j }
    requires j_in_bounds { j * 5 + 5 ≤ length attributes.now }
    requires j_bound { j < 65536 }
    requires kind_bound { kind ≤ 12 }
    requires bounded { Bounded given (areas own.old text.old) }
    ensures { StepsAttribute kind (tagged attributes.now source.now) range free hint j given
        (areas own.old text.old) (areas own.new text.new) result }
{
    let at = j * 5;
    let words = &attributes[at..];
    if words[0] != 0 {
        return Err(refused_at(Cause::FaultyAttribute, j));
    }
    if is_repeated(attributes, source, range.first, j, words, free) {
        return Err(refused_at(Cause::RepeatedKey, j));
    }
    read_attribute(kind, words, j, source, hint, given, own, text)
}
