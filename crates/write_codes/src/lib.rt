// Where a key's value and its presence bit stand in a record, and whether an attribute has room.
#![tactic(auto)]

ghost use Rattle.std.specs.Prelude.{◌≡◌, ◌≤◌};
ghost use Rattle.write_items.specs.of_write_table.inside.Putting.{pair_limits};
ghost use Rattle.write_items.specs.inside.Values.{offset_of};
ghost use Rattle.write_items.specs.inside.Slots.{bit_of};

use write_items::the_area::limit;
use write_items::the_names::key;
use write_items::the_tree_record::{bit, word};
pub use write_items::{the_area, the_names, the_table, the_tree_record};

// No presence bit: the value is always there.
pub const ALWAYS: u32 = 32;

// The code of a report's name, which may be missing.
const REPORT_NAME: usize = 16;

// Where the value under a key stands in a record.
pub fn offset_of_key(code: u8) -> usize
    ensures value { result ≡ offset_of code }
    ensures upper_bound { result ≤ 30 }
{
    let c = code as usize;
    if (c == key::CLASSNAME) | ((c == key::TESTS) | (c == key::TYPE)) {
        return word::CLASSNAME;
    }
    if (c == key::FAILURES) | (c == key::ASSERTIONS) {
        return word::FAILURES;
    }
    if c == key::ERRORS {
        return word::ERRORS;
    }
    if c == key::SKIPPED {
        return word::SKIPPED;
    }
    if c == key::DISABLED {
        return word::DISABLED;
    }
    if c == key::HOSTNAME {
        return word::HOSTNAME;
    }
    if c == key::VALUE {
        word::VALUE
    } else {
        word::NAME
    }
}

// The presence bit of a key.
pub fn bit_of(code: u8) -> u32
    ensures { result ≡ bit_of code }
{
    let c = code as usize;
    if (c == key::MESSAGE) | (c == REPORT_NAME) {
        return bit::NAME;
    }
    if c == key::UUID {
        return bit::UUID;
    }
    if c == key::TIMESTAMP {
        return bit::TIMESTAMP;
    }
    if c == key::TIME {
        return bit::TIME;
    }
    if (c == key::CLASSNAME) | (c == key::TYPE) {
        return bit::CLASSNAME;
    }
    if c == key::ASSERTIONS {
        return bit::ASSERTIONS;
    }
    if c == key::HOSTNAME {
        return bit::HOSTNAME;
    }
    if c == key::DISABLED {
        bit::DISABLED
    } else {
        ALWAYS
    }
}

pub fn has_pair_room(attributes: usize, bytes: usize) -> bool
    ensures { result ≡ pair_limits attributes bytes }
{
    (attributes < limit::ENTRIES) & (bytes <= limit::BYTES)
}
