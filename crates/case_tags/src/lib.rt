// How many `testcase` tags the events of a table have, whether or not reading makes a case of them.
#![tactic(auto)]

ghost use Rattle.std.specs.Prelude.{◌≡◌, ℕ, ◌<◌, List};
ghost use Rattle.table_events.specs.of_table.Table.{count_of};
ghost use Rattle.table_events.specs.of_table.Event.{event_at, resolve};
ghost use Rattle.case_tags.specs.Tags.{case_tag, case_tags};

use table_events::the_names::{tag, tag_of};
use table_events::the_table::kind;
pub use table_events::{the_area, the_refusal};
use table_events::{bytes_at, kind_at};

// 1 where event i is one.
fn case_tag(events: &[u32], source: &[u8], i: usize) -> usize
    requires { i < count_of events.now }
    ensures { (attributes : List ℕ) → result ≡ case_tag (event_at events.now attributes source.now i) }
{
    if kind::EMPTY < kind_at(events, i) {
        return 0;
    }
    if tag_of(bytes_at(events, source, i)) == tag::TESTCASE {
        return 1;
    }
    0
}

// Of any words and bytes, also of those that no table has; attributes aren't looked at.
pub fn case_tags(events: &[u32], source: &[u8]) -> usize
    ensures { (attributes : List ℕ) → result ≡ case_tags (resolve events.now attributes source.now) }
{
    let mut count = 0;
    for i in 0..events.len() / 5 {
        count += case_tag(events, source, i);
    }
    count
}
