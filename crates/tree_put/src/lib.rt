// Words put into a record, which stands at the front of the part it is given as.
#![tactic(auto)]

ghost use Rattle.std.specs.Prelude.{◌≡◌};
ghost use Rattle.tree_put.specs.Put.{put_pair, put_text, put_count_of};

pub use timestamp as the_timestamp;
pub use timestamp::{the_area, the_names, the_refusal};
pub use tree_record as the_tree_record;
use tree_record::{put_bit, put_field};
pub use uuids as the_uuids;

// Two words from word o on. Where the part lacks the first, it lacks the second too.
pub fn put_pair(words: &mut [u32], o: usize, a: u32, b: u32)
    ensures { words.new ≡ put_pair o a b words.old }
{
    if words.len() <= o {
        return;
    }
    put_field(words, o, a);
    put_field(words, o + 1, b);
}

// A text of n bytes that is stored from `start` on.
pub fn put_text(words: &mut [u32], o: usize, k: u32, start: u32, n: u32)
    ensures { words.new ≡ put_text o k start n words.old }
{
    put_pair(words, o, start, n);
    put_bit(words, k);
}

// A count: low word, high word.
pub fn put_count(words: &mut [u32], o: usize, n: u64)
    ensures { words.new ≡ put_count_of o n words.old }
{
    put_pair(words, o, (n % 4294967296) as u32, (n / 4294967296) as u32);
}
