// Chains of keys that fall into one bucket, in lent words: word b of the first m is one more than the number of the last key in
// bucket b, and word m + i is that for the last key before number i in the bucket of key i. 0 is none.
#![tactic(auto)]

ghost use Rattle.std.specs.Prelude.{◌≡◌, ◌+◌, ◌<◌, length};
ghost use Rattle.chains.specs.Chains.{hash_from, bucket_of, linked};

pub use area as the_area;

// The hash of bytes, behind bytes whose hash is `from`.
pub fn hash_from(from: usize, bytes: &[u8]) -> usize
    requires { from < 4294967296 }
    ensures { result ≡ hash_from from bytes.now }
{
    let mut h = from;
    for b in bytes {
        h = (h * 16777619 + h / 65536 + *b as usize) % 4294967296;
    }
    h
}

// The bucket of a key, of m.
pub fn bucket(key: &[u8], m: usize) -> usize
    requires { 0 < m }
    ensures { result ≡ bucket_of m key.now }
{
    hash_from(0, key) % m
}

// Key i, whose bucket is b, is entered behind those before it.
pub fn link(work: &mut [u32], m: usize, b: usize, i: usize)
    requires b_lt_m { b < m }
    requires i_in_bounds { m + i < length work.old }
    requires i_bound { i < 65536 }
    ensures { work.new ≡ linked m b i work.old }
{
    work[m + i] = work[b];
    work[b] = (i + 1) as u32;
}
