// Numbers as ASCII digits: read from a slice, all of which is the number, and printed to the front of an area.
#![tactic(auto)]

ghost use Rattle.std.specs.Prelude.{◌≡◌, ◌++◌, ◌-◌, ◌≤◌, min, length};
ghost use Rattle.utf8.specs.of_area.Area.{zeros, stored_answer, placing, laid};
ghost use Rattle.digits.specs.Digits.{digit, number_in, last_digits_of, places, decimal};
ghost use Rattle.utf8.specs.of_refusal.declared.Cause.TheVariants as cause;

pub use utf8 as the_utf8;
pub use utf8::{the_area, the_refusal};

#[tactic(auto, unfolding(crate::specs::Digits::digit))]
fn digit_of(base: u64, b: u8) -> u64
    ensures { result ≡ digit base b }
{
    let d = b as u64;
    if (0x30 <= b) & (b <= 0x39) {
        return d - 0x30;
    }
    if (base == 16) & ((0x61 <= b) & (b <= 0x66)) {
        return d - 0x57;
    }
    if (base == 16) & ((0x41 <= b) & (b <= 0x46)) {
        return d - 0x37;
    }
    base
}

// Ends at the first digit that takes the number past `most`, since each digit behind it only makes it larger.
// That digit is found by a quotient, so that no product wraps, whatever `most` is.
fn number_in(base: u64, most: u64, s: &[u8]) -> Option<u64>
    requires { (10 ≤ base) × (base ≤ 16) }
    ensures { result ≡ number_in base most s.now }
{
    if s.is_empty() {
        return None;
    }
    let mut v: u64 = 0;
    for b in s {
        let d = digit_of(base, *b);
        if base <= d {
            return None;
        }
        if most < d {
            return None;
        }
        if (most - d) / base < v {
            return None;
        }
        v = v * base + d;
    }
    Some(v)
}

// A number of at most `most`, or None.
pub fn decimal(s: &[u8], most: u64) -> Option<u64>
    ensures { result ≡ number_in 10 most s.now }
{
    number_in(10, most, s)
}

// Letters are of either case.
pub fn hexadecimal(s: &[u8], most: u64) -> Option<u64>
    ensures { result ≡ number_in 16 most s.now }
{
    number_in(16, most, s)
}

fn places_of(n: u64) -> usize
    ensures { result ≡ places n }
{
    // while: as many turns as n has digits.
    let mut k: usize = 1;
    let mut rest = n;
    while rest >= 10 {
        rest /= 10;
        k += 1;
    }
    k
}

fn spell(k: usize, n: u64) -> [u8; 20]
    requires { k ≤ 20 }
    ensures { result ≡ last_digits_of k n ++ zeros (20 - k) }
{
    let mut bytes: [u8; 20] = [0; 20];
    let mut rest = n;
    for i in (0..k).rev() {
        bytes[i] = 0x30 + (rest % 10) as u8;
        rest /= 10;
    }
    bytes
}

// The last k digits of n, leading zeros too: at most twenty, as many as a u64 can have.
pub fn write_digits(out: &mut [u8], k: usize, n: u64) -> Option<usize>
    ensures result_value { stored_answer cause.OutputFull result ≡ placing cause.OutputFull (length out.old) (last_digits_of (min k 20) n) }
    ensures out_after { out.new ≡ laid out.old (last_digits_of (min k 20) n) }
{
    let w = k.min(20);
    let bytes = spell(w, n);
    utf8::the_area::copy_into(out, &bytes[..w])
}

// By rule W9.
pub fn write_decimal(out: &mut [u8], n: u64) -> Option<usize>
    ensures result_value { stored_answer cause.OutputFull result ≡ placing cause.OutputFull (length out.old) (decimal n) }
    ensures out_after { out.new ≡ laid out.old (decimal n) }
{
    let k = places_of(n);
    write_digits(out, k, n)
}
