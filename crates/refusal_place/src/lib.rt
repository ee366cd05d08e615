// The byte of a table's source where a refusal arose.
#![tactic(auto)]

ghost use Rattle.std.specs.Prelude.{◌≡◌, ◌≤◌, Bool, length};
ghost use Rattle.refusal_place.specs.Place.{entry_byte, attribute_byte, event_byte, root_byte, byte_of};

use table::kind;
use table::the_area::wide;
use table::the_refusal::NOWHERE;
use table::the_table_parts::word_of;

// Stands for no byte, by rule F14.
const NO_BYTE: usize = 4294967295;

// Word k of entry i; where word l of it is 0, or there is no such entry, what stands for it.
fn entry_byte(table: &[u32], i: usize, outside: usize, l: usize, empty: usize, k: usize) -> usize
    requires { (l ≤ 4) × (k ≤ 4) }
    ensures { result ≡ entry_byte table.now i outside l empty k }
{
    if table.len() / 5 <= i {
        return outside;
    }
    if word_of(table, i * 5 + l) == 0 {
        return empty;
    }
    wide(word_of(table, i * 5 + k))
}

fn attribute_byte(attributes: &[u32], j: u32) -> usize
    ensures { result ≡ attribute_byte attributes.now j }
{
    let i = wide(j);
    let key = wide(word_of(attributes, i * 5 + 1));
    entry_byte(attributes, i, NO_BYTE, 4, key, 3)
}

fn event_byte(events: &[u32], size: usize, j: u32) -> usize
    ensures { result ≡ event_byte events.now size j }
{
    entry_byte(events, wide(j), size, 2, size, 1)
}

fn root_byte(events: &[u32]) -> usize
    ensures { result ≡ root_byte events.now }
{
    for i in 0..events.len() / 5 {
        let at = i * 5;
        if word_of(events, at) <= kind::EMPTY {
            return wide(word_of(events, at + 1));
        }
    }
    NO_BYTE
}

// By rule F14. `missing`: the cause is that there is no report. 4294967295 where no byte is concerned.
pub fn byte_of(
    missing: bool,
    event: u32,
    attribute: u32,
    events: &[u32],
    attributes: &[u32],
    source: &[u8],
) -> usize
    ensures { result ≡ byte_of missing event attribute events.now attributes.now (length source.now) }
{
    if attribute != NOWHERE {
        return attribute_byte(attributes, attribute);
    }
    let root = root_byte(events);
    if missing & (root != NO_BYTE) {
        return root;
    }
    if event == NOWHERE {
        return NO_BYTE;
    }
    event_byte(events, source.len(), event)
}
