// The order of attributes by their keys as they are, or by what would be stored for them, which is compared without being stored.
#![tactic(auto)]

ghost use Rattle.std.specs.Prelude.{◌≡◌, ◌≤◌, length, get_or};
ghost use Rattle.text_key.specs.of_text.Value.{value_text};
ghost use Rattle.key_order.specs.inside.KeyOrder.{comes};
ghost use Rattle.clean_order.specs.inside.CleanOrder.{comes_by};
ghost use Rattle.clean_order.specs.inside.Following.{Follows};

pub use key_order as the_key_order;
use key_order::{comes, key_of};
pub use text_key as the_text_key;
use text_key::cleaned_length;
use text_key::the_text::decode::piece_of;
pub use text_key::{the_area, the_names, the_text};

// A byte that would be stored for a key, and the place behind it: what the key stands for from number `at` on, without `passed` bytes.
#[derive(Clone, Copy)]
pub struct Next {
    pub byte: u8,
    pub at: usize,
    pub passed: usize,
}

fn byte_of(bytes: &[u8], k: usize) -> u8
    ensures { result ≡ get_or bytes.now k 0 }
{
    if k < bytes.len() {
        return bytes[k];
    }
    0
}

// The byte at a place, where there is one.
fn next_of(key: &[u8], at: usize, passed: usize) -> Next
    requires { at ≤ length key.now }
    ensures { Follows key.now at passed result }
{
    let mut i = at;
    let mut left = passed;
    // while: each step passes a whole piece.
    while i < key.len() {
        let p = piece_of(&key[i..], true);
        let n = p.n;
        let bytes = p.bytes;
        if left < n {
            let byte = byte_of(&bytes[..n], left);
            return Next {
                byte,
                at: i,
                passed: left + 1,
            };
        }
        left -= n;
        i += p.width;
    }
    Next {
        byte: 0,
        at: i,
        passed: left,
    }
}

// The same for keys for which n bytes would be stored.
fn walk(a: &[u8], b: &[u8], n: usize, i: u32, j: u32) -> bool
    requires n_value { n ≡ length (value_text a.now) }
    requires n_value_2 { n ≡ length (value_text b.now) }
    ensures { result ≡ comes (value_text a.now) (value_text b.now) i j }
{
    let mut x = Next {
        byte: 0,
        at: 0,
        passed: 0,
    };
    let mut y = x;
    for _ in 0..n {
        x = next_of(a, x.at, x.passed);
        y = next_of(b, y.at, y.passed);
        if x.byte != y.byte {
            return x.byte < y.byte;
        }
    }
    i <= j
}

// Whether attribute i with key a comes before attribute j with key b, or is it, by what would be stored.
pub fn comes_cleaned(a: &[u8], b: &[u8], i: u32, j: u32) -> bool
    ensures { result ≡ comes (value_text a.now) (value_text b.now) i j }
{
    let n = cleaned_length(a);
    let m = cleaned_length(b);
    if n != m {
        return n < m;
    }
    walk(a, b, n, i, j)
}

// Whether attribute i comes before attribute j, or is it: by what would be stored for their keys, where `clean` asks for it.
pub fn comes_by(attributes: &[u32], source: &[u8], i: u32, j: u32, clean: bool) -> bool
    ensures { result ≡ comes_by clean attributes.now source.now i j }
{
    if clean {
        return comes_cleaned(
            key_of(attributes, source, i),
            key_of(attributes, source, j),
            i,
            j,
        );
    }
    comes(attributes, source, i, j)
}
