// Digits behind a point, as billionths.
#![tactic(auto)]

ghost use Rattle.std.specs.Prelude.{◌≡◌, ◌-◌, ◌*◌, ◌^◌, ◌≤◌, ◌<◌};
ghost use Rattle.fraction.specs.Fraction.{billionths_of};

pub use digits as the_digits;
pub use digits::{the_area, the_refusal, the_utf8};

// The value v of n digits, in billionths.
fn scaled(v: u64, n: usize) -> u64
    requires { (n ≤ 9) × (v < 10 ^ n) }
    ensures { result ≡ v * 10 ^ (9 - n) }
{
    v * 10u64.pow((9 - n) as u32)
}

// What at most nine digits, or none, stand for.
pub fn billionths_of(f: &[u8]) -> Option<u64>
    ensures { result ≡ billionths_of f.now }
{
    if f.is_empty() {
        return Some(0);
    }
    if 9 < f.len() {
        return None;
    }
    let v = digits::decimal(f, 999999999)?;
    Some(scaled(v, f.len()))
}
