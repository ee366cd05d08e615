// Names: two parts compared, and one dispatch from a tag name or an attribute key to its code.
#![tactic(auto)]

ghost use Rattle.std.specs.Prelude.{◌≡◌};
ghost use Rattle.names.specs.Names.{same_bytes, code_in, cut};
ghost use Rattle.names.specs.Tags.{tag_of};
ghost use Rattle.names.specs.Keys.{key_of};

pub use area as the_area;
pub use area::the_refusal;

pub mod key;
pub mod tag;

use area::least;

pub fn same(a: &[u8], b: &[u8]) -> bool
    ensures { result ≡ same_bytes a.now b.now }
{
    if a.len() != b.len() {
        return false;
    }
    // Not `==`: the compiler makes of it some sixteen instructions for each name of a table where fewer than four bytes are looked for, of this
    // one branch for the whole table.
    for i in 0..a.len() {
        if a[i] != b[i] {
            return false;
        }
    }
    true
}

// The place of s, from 1, among the names that stand one behind the other in names, or 0.
pub fn code_in(names: &[u8], lengths: &[u8], s: &[u8]) -> usize
    ensures { result ≡ code_in (cut names.now lengths.now) s.now }
{
    let mut at = 0;
    for (k, n) in lengths.iter().enumerate() {
        let end = least(at + *n as usize, names.len());
        if same(&names[at..end], s) {
            return k + 1;
        }
        at = end;
    }
    0
}

// By rule R2.
pub fn tag_of(name: &[u8]) -> usize
    ensures { result ≡ tag_of name.now }
{
    code_in(
        b"testsuitestestsuitetestcasepropertiespropertyfailureerrorskippedflakyFailureflakyErrorrerunFailurererunErrorstackTracesystem-outsystem-err",
        b"\x0a\x09\x08\x0a\x08\x07\x05\x07\x0c\x0a\x0c\x0a\x0a\x0a\x0a",
        name,
    )
}

// By rule A4.
pub fn key_of(key: &[u8]) -> usize
    ensures { result ≡ key_of key.now }
{
    code_in(
        b"nameclassnameuuidtimestamptimetestsfailureserrorsskippeddisabledassertionsmessagetypevaluehostname",
        b"\x04\x09\x04\x09\x04\x05\x08\x06\x07\x08\x0a\x07\x04\x05\x08",
        key,
    )
}
