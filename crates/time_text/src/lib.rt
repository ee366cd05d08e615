// Times as they are written.
#![tactic(auto)]

ghost use Rattle.std.specs.Prelude.{◌≡◌, T, length};
ghost use Rattle.time.specs.of_area.Area.{stored_answer, placing, laid};
ghost use Rattle.time_text.specs.Written.{float_sum, small, thousandths_of, written_time, count, whole};
ghost use Rattle.time.specs.of_refusal.declared.Cause.TheVariants as cause;

pub use time as the_time;
pub use time::{the_area, the_digits, the_refusal};

// Seconds as a float plus nanoseconds divided by a billion (rule W10).
pub fn float_sum(secs: u32, nanos: u32) -> f64
    ensures { result ≡ float_sum secs nanos }
{
    (secs as f64) + (nanos as f64) / 1000000000.0
}

// The whole number nearest to a thousand times x, a tie to the even one.
fn nearest_thousandth(x: f64) -> u64
    requires { T (small x) }
    ensures { result ≡ thousandths_of x }
{
    // x is `digits` * 2 ^ (`exponent` - 1075), or below 2 ^ -1022 where `exponent` is 0
    let bits: u64 = f64::to_bits(x);
    let exponent: u64 = bits >> 52;
    let digits: u64 = (bits & 0xf_ffff_ffff_ffff) | 0x10_0000_0000_0000;
    let shift: u64 = 1075 - exponent;
    if shift >= 64 {
        return 0;
    }
    let unit: u64 = 1u64 << shift;
    let all: u64 = digits * 1000;
    let whole: u64 = all / unit;
    let left: u64 = (all % unit) * 2;
    if left < unit {
        return whole;
    }
    if left > unit {
        return whole + 1;
    }
    whole + whole % 2
}

// The written time in thousandths of a second (rule W10).
pub fn thousandths(secs: u32, nanos: u32) -> u64
    ensures { result ≡ thousandths_of (float_sum secs nanos) }
{
    nearest_thousandth(float_sum(secs, nanos))
}

// Puts a time at the front of out: seconds, a point, and three digits (rules W10 and W11).
pub fn write_time(out: &mut [u8], secs: u32, nanos: u32) -> Option<usize>
    ensures result_value { stored_answer cause.OutputFull result ≡ placing cause.OutputFull (length out.old) (written_time secs nanos) }
    ensures out_after { out.new ≡ laid out.old (written_time secs nanos) }
{
    let ms = thousandths(secs, nanos);
    let point = time::the_digits::write_decimal(out, ms / 1000)?;
    if out.len() <= point {
        return None;
    }
    out[point] = 0x2e;
    let from = point + 1;
    let n = time::the_digits::write_digits(&mut out[from..], 3, ms)?;
    Some(from + n)
}
