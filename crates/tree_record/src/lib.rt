// Records of 32 words: one word or one presence bit of one read or changed. A record stands at the front of the part it is
// given as.
#![tactic(auto)]

ghost use Rattle.std.specs.Prelude.{◌≡◌, get_or, set};
ghost use Rattle.tree_record.specs.Record.{mask_of, has_bit, marked};

pub mod bit;
pub mod kind;
pub mod word;

// Word o of a record, 0 behind the part's end.
pub fn field(words: &[u32], o: usize) -> u32
    ensures { result ≡ get_or words.now o 0 }
{
    words.get(o).copied().unwrap_or(0)
}

// Changes word o of a record, where the part has it.
pub fn put_field(words: &mut [u32], o: usize, v: u32)
    ensures { words.new ≡ set words.old o v }
{
    if words.len() <= o {
        return;
    }
    words[o] = v;
}

// The value of bit k; a higher k counts as 31.
fn mask_of(k: u32) -> u32
    ensures { result ≡ mask_of k }
{
    1 << k.min(31)
}

// Whether the presence bit k is set.
pub fn has_bit(words: &[u32], k: u32) -> bool
    ensures { result ≡ has_bit k words.now }
{
    field(words, word::BITS) / mask_of(k) % 2 == 1
}

// Sets the presence bit k. Where it isn't set, the sum has no carry.
pub fn put_bit(words: &mut [u32], k: u32)
    ensures { words.new ≡ marked k words.old }
{
    if has_bit(words, k) {
        return;
    }
    let bits = field(words, word::BITS);
    put_field(words, word::BITS, bits + mask_of(k));
}
