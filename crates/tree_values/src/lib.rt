// A UUID, a timestamp or a time put into a record, which stands at the front of the part it is given as.
#![tactic(auto)]

ghost use Rattle.std.specs.Prelude.{◌≡◌};
ghost use Rattle.tree_put.specs.Put.{put_uuid, put_moment, put_time};

pub use tree_put as the_tree_put;
use tree_put::put_pair;
use tree_put::the_timestamp::Moment;
use tree_put::the_tree_record::{bit, put_bit, word};
use tree_put::the_uuids::Words;
pub use tree_put::{the_area, the_names, the_refusal, the_timestamp, the_tree_record, the_uuids};

pub fn put_uuid(words: &mut [u32], w: Words)
    ensures { words.new ≡ put_uuid w words.old }
{
    put_pair(words, word::UUID, w.a, w.b);
    put_pair(words, word::UUID_BACK, w.c, w.d);
    put_bit(words, bit::UUID);
}

pub fn put_moment(words: &mut [u32], m: Moment)
    ensures { words.new ≡ put_moment m words.old }
{
    put_pair(words, word::YEAR, m.year as u32, m.month as u32);
    put_pair(words, word::DAY, m.day as u32, m.hour as u32);
    put_pair(words, word::MINUTE, m.minute as u32, m.second as u32);
    put_pair(words, word::NANOS, m.nanos, m.offset as u32);
    put_bit(words, bit::TIMESTAMP);
}

pub fn put_time(words: &mut [u32], seconds: u32, nanos: u32)
    ensures { words.new ≡ put_time (seconds, nanos) words.old }
{
    put_pair(words, word::SECONDS, seconds, nanos);
    put_bit(words, bit::TIME);
}
