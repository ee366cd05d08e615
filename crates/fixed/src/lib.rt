// Numbers that stand at known places of a text.
#![tactic(auto)]

ghost use Rattle.std.specs.Prelude.{◌≡◌};
ghost use Rattle.digits.specs.Digits.{number_in};
ghost use Rattle.fixed.specs.Fields.{part};

pub use digits::the_utf8;

// The n bytes of s from `from` on, or as many as there are.
fn part_of(s: &[u8], from: usize, n: usize) -> &[u8]
    ensures { result.now ≡ part from n s.now }
{
    let start = from.min(s.len());
    let end = start + n.min(s.len() - start);
    &s[start..end]
}

pub fn decimal_at(s: &[u8], from: usize, n: usize, most: u32) -> Option<u32>
    ensures { result ≡ number_in 10 most (part from n s.now) }
{
    let v = digits::decimal(part_of(s, from, n), most as u64)?;
    Some(v as u32)
}

pub fn hexadecimal_at(s: &[u8], from: usize, n: usize, most: u32) -> Option<u32>
    ensures { result ≡ number_in 16 most (part from n s.now) }
{
    let v = digits::hexadecimal(part_of(s, from, n), most as u64)?;
    Some(v as u32)
}
