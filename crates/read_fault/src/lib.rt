// Why an attribute is refused, and the path of its value.
#![tactic(auto)]

ghost use Rattle.std.specs.Prelude.{◌≡◌, ◌<◌, ◌^◌};
ghost use Rattle.read_extra_record.specs.of_read_element.Outcome as outcome;
ghost use Rattle.read_fault.specs.inside.Faults.{fault_of, with_attribute};

use read_extra_record::the_refusal::{Cause, NOWHERE, Path, PathElement};

// Why an element is refused: the code of the key whose value it is, 0 where the path has no Attribute, and the attribute's
// number, 4294967295 where none is concerned.
#[derive(Clone, Copy)]
pub struct Fault {
    pub cause: Cause,
    pub key: u32,
    pub attribute: u32,
}

// A refusal at attribute j whose path has no Attribute (rules A11 and F9).
pub fn refused_at(cause: Cause, j: usize) -> Fault
    requires { j < 2 ^ 32 }
    ensures { result ≡ fault_of cause 0 j }
{
    Fault {
        cause,
        key: 0,
        attribute: j as u32,
    }
}

pub fn element_of(kind: u32, index: u32, event: u32) -> PathElement
    ensures { result ≡ outcome.element kind index event }
{
    PathElement { kind, index, event }
}

// The code that a path's Attribute has for a key.
fn attribute_of(key: u32) -> u32
    ensures { result ≡ outcome.attribute_of key }
{
    if key <= 14 { key } else { 16 }
}

// The path of an attribute's value (rule A11), where the key's code says that there is one.
pub fn within(path: Path, key: u32) -> Path
    ensures { result ≡ with_attribute path key }
{
    if key == 0 {
        return path;
    }
    path.with(element_of(16, attribute_of(key), NOWHERE))
}
