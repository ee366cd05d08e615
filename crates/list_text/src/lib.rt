// Lines of the public listing: texts put one behind the other into the output area. A mark says how many bytes of it are
// in use; it is Full once a text didn't fit, and then nothing more is put.
#![tactic(auto)]

ghost use Rattle.std.specs.Prelude.{◌≡◌, not, ℕ, List};
ghost use Rattle.time_text.specs.of_digits.Digits.{decimal};
ghost use Rattle.time_text.specs.Written.{written_time};
ghost use Rattle.escape.specs.Escape.{escaped};
ghost use Rattle.list_text.specs.inside.Behind.{filled, is_full, free_of, Writes, Puts};

pub use time_text as the_time_text;
use time_text::the_area::least;
pub use time_text::{the_area, the_refusal};
pub use tree_report::{the_names, the_tree_record};

// Whether there may be room for more.
pub fn is_open(k: Option<usize>) -> bool
    ensures { result ≡ not (is_full k) }
{
    k.is_some()
}

// Lends what is free of the area to `write`, which puts the text t there.
pub fn put_behind<F: FnOnce(&mut [u8]) -> Option<usize>>(
    out: &mut [u8],
    k: Option<usize>,
    write: F,
) -> Option<usize>
    ghost t: { List ℕ }
    requires callable { F.IsAlwaysCallable write }
    requires writes { Writes F.FnOnce write (free_of k out.old) t }
    ensures { Puts (filled k out.old) t (filled result out.new) }
{
    let used = k?;
    let from = least(used, out.len());
    let n = write(&mut out[from..])?;
    Some(used + n)
}

pub fn put(out: &mut [u8], k: Option<usize>, t: &[u8]) -> Option<usize>
    ensures { Puts (filled k out.old) t.now (filled result out.new) }
{
    put_behind(out, k, |rest| escape::the_copying::copy_into(rest, t))
}

pub fn put_escaped(out: &mut [u8], k: Option<usize>, s: &[u8]) -> Option<usize>
    ensures { Puts (filled k out.old) (escaped s.now) (filled result out.new) }
{
    put_behind(out, k, |rest| escape::escape_into(rest, s))
}

// By rule L9.
pub fn put_decimal(out: &mut [u8], k: Option<usize>, n: u64) -> Option<usize>
    ensures { Puts (filled k out.old) (decimal n) (filled result out.new) }
{
    put_behind(out, k, |rest| time_text::the_digits::write_decimal(rest, n))
}

// By rule L9.
pub fn put_time(out: &mut [u8], k: Option<usize>, secs: u32, nanos: u32) -> Option<usize>
    ensures { Puts (filled k out.old) (written_time secs nanos) (filled result out.new) }
{
    put_behind(out, k, |rest| time_text::write_time(rest, secs, nanos))
}
