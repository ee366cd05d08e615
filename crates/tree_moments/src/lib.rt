// A record's timestamp and time: present with good words, or absent with words of zero.
#![tactic(auto)]

ghost use Rattle.std.specs.Prelude.{◌≡◌, ◌≤◌, length};
ghost use Rattle.tree_slots.specs.of_timestamp.Timestamp.{in_range};
ghost use Rattle.tree_slots.specs.of_tree_report.Fields.{moment_of};
ghost use Rattle.tree_slots.specs.of_tree_report.inside.Parts.{moment_slot, time_slot};
ghost use Rattle.tree_moments.specs.inside.Fitting.{moment_fits};

pub use tree_slots as the_tree_slots;
use tree_slots::is_zero;
use tree_slots::the_timestamp::Moment;
use tree_slots::the_tree_record::{bit, has_bit, word};
pub use tree_slots::{
    the_area, the_fixed, the_names, the_refusal, the_text_filter, the_timestamp, the_tree_record,
    the_utf8, the_uuids,
};

// The words of a timestamp fit the fields of a moment.
fn moment_fits(r: &[u32]) -> bool
    requires { 32 ≤ length r.now }
    ensures { result ≡ moment_fits r.now }
{
    let date = (r[word::YEAR] <= 9999) & ((r[word::MONTH] <= 12) & (r[word::DAY] <= 31));
    let clock = (r[word::HOUR] <= 23) & ((r[word::MINUTE] <= 59) & (r[word::SECOND] <= 59));
    date & (clock & (r[word::OFFSET] <= 2878))
}

fn in_range(r: &[u32]) -> bool
    requires { 32 ≤ length r.now }
    ensures { result ≡ in_range (moment_of r.now) }
{
    if !moment_fits(r) {
        return false;
    }
    tree_slots::the_timestamp::in_range(Moment {
        year: r[word::YEAR] as u16,
        month: r[word::MONTH] as u8,
        day: r[word::DAY] as u8,
        hour: r[word::HOUR] as u8,
        minute: r[word::MINUTE] as u8,
        second: r[word::SECOND] as u8,
        nanos: r[word::NANOS],
        offset: r[word::OFFSET] as u16,
    })
}

// By rule M10.
pub fn moment_slot(r: &[u32]) -> bool
    requires { 32 ≤ length r.now }
    ensures { result ≡ moment_slot r.now }
{
    if has_bit(r, bit::TIMESTAMP) {
        return in_range(r);
    }
    is_zero(&r[word::TIMESTAMP..word::TIME])
}

// By rule M10.
pub fn time_slot(r: &[u32]) -> bool
    requires { 32 ≤ length r.now }
    ensures { result ≡ time_slot r.now }
{
    if has_bit(r, bit::TIME) {
        return (r[word::SECONDS] <= 8388607) & (r[word::TIME_NANOS] <= 999999999);
    }
    is_zero(&r[word::TIME..word::TESTS])
}
