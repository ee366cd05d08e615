// An element's attributes, one after the other: an extra is looked for among those before it, unless its key tells that it is new.
#![tactic(auto)]

ghost use Rattle.std.specs.Prelude.{◌≤◌};
ghost use Rattle.read_free.specs.of_read_element.inside.Refines.{tagged, areas};
ghost use Rattle.read_plain.specs.inside.Plain.{Plain};
ghost use Rattle.read_each.specs.inside.Promises.{Begins, ReadsAttributes};

pub use read_attribute as the_read_attribute;
use read_attribute::the_read_extra_record::Given;
use read_attribute::the_read_fault::Fault;
pub use read_attribute::{the_read_extra_record, the_read_fault};
use read_attribute::{Range, step_attribute};
pub use read_free as the_read_free;
pub use read_free::the_read_chains;
pub use read_plain as the_read_plain;

// Each to its end before the next (rule A2). No two attributes of the range before number `clear` have the same key; from there on
// each is compared with those before it. The keys before number `plain` stand for themselves: of those, one that is no repeat is no
// earlier extra's.
pub fn read_each(
    kind: u32,
    attributes: &[u32],
    source: &[u8],
    range: Range,
    clear: usize,
    plain: usize,
    fill: usize,
    own: &mut [u32],
    text: &mut [u8],
) -> Result<Given, Fault>
    requires kind_bound { kind ≤ 12 }
    requires plain { Plain attributes.now source.now range.first plain }
    requires begins { Begins kind (tagged attributes.now source.now) range clear fill (areas own.old text.old) }
    ensures { ReadsAttributes kind (tagged attributes.now source.now) range fill
        (areas own.old text.old) (areas own.new text.new) result }
{
    let mut given = Given { extras: 0, fill };
    for j in range.first..range.end {
        let free = j < clear;
        let hint = if free & (j < plain) {
            given.extras
        } else {
            given.extras + 1
        };
        given = step_attribute(
            kind, attributes, source, range, free, hint, j, given, own, text,
        )?;
    }
    Ok(given)
}
