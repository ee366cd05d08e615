// The timestamp of a record as a moment. Every record has one: each number is cut to the digits that are written of it, which changes nothing
// in a layout.
#![tactic(auto)]

ghost use Rattle.std.specs.Prelude.{◌≡◌};
ghost use Rattle.tree_stamp.specs.Stamp.{cut_offset, cut_moment};

pub use days as the_days;
pub use days::the_area;
use tree_report::the_timestamp::Moment;
use tree_report::the_tree_record::{field, word};
pub use tree_report::{the_names, the_tree_record, the_uuids};

// Hours and minutes of an offset have two digits each.
fn offset_of(w: u32) -> u16
    ensures { result ≡ cut_offset w }
{
    if w < 7439 {
        return w as u16;
    }
    (1439 + (w - 1439) % 6000) as u16
}

pub fn moment_of(r: &[u32]) -> Moment
    ensures { result ≡ cut_moment r.now }
{
    Moment {
        year: (field(r, word::YEAR) % 10000) as u16,
        month: (field(r, word::MONTH) % 100) as u8,
        day: (field(r, word::DAY) % 100) as u8,
        hour: (field(r, word::HOUR) % 100) as u8,
        minute: (field(r, word::MINUTE) % 100) as u8,
        second: (field(r, word::SECOND) % 100) as u8,
        nanos: field(r, word::NANOS),
        offset: offset_of(field(r, word::OFFSET)),
    }
}
