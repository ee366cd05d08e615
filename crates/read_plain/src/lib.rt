// Keys that stand for themselves: what would be stored for them is what they are.
#![tactic(auto)]

ghost use Rattle.std.specs.Prelude.{◌≡◌, ◌*◌, ◌≤◌, length};
ghost use Rattle.read_plain.specs.inside.Plain.{unaltered, Plain};

use read_chains::key::key_at;
use read_chains::the_text_filter::is_dropped;

// Whether no byte begins a reference or is dropped (rules X3 and X8). No exit before the end: so the compiler takes many bytes at a time.
fn is_own(key: &[u8]) -> bool
    ensures { result ≡ unaltered key.now }
{
    let mut odd = false;
    for b in key {
        odd = odd | ((*b == 0x26) | is_dropped(*b));
    }
    !odd
}

// A number up to which the keys of the attributes from number `first` on stand for themselves: that of the first which doesn't, or
// `end`.
pub fn plain_to(attributes: &[u32], source: &[u8], first: usize, end: usize) -> usize
    requires first_le_end { first ≤ end }
    requires end_in_bounds { end * 5 ≤ length attributes.now }
    ensures { Plain attributes.now source.now first result }
{
    for j in first..end {
        if !is_own(key_at(attributes, source, j)) {
            return j;
        }
    }
    end
}
