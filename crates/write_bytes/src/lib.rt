// Words and texts put behind what an area holds already. A mark says how much of it is in use; it is None once something didn't fit.
#![tactic(auto)]

ghost use Rattle.std.specs.Prelude.{◌≡◌, length};
ghost use Rattle.list_text.specs.of_area.Area.{stored_answer, placing, laid};
ghost use Rattle.list_text.specs.inside.Behind.{filled, Puts};
ghost use Rattle.write_escape.specs.Escape.{escaped};
ghost use Rattle.write_moment.specs.Written.{timestamp_text};
ghost use Rattle.write_uuid.specs.Written.{uuid_text};
ghost use Rattle.list_text.specs.of_refusal.declared.Cause.TheVariants as cause;

pub use list_text as the_list_text;
pub use list_text::{the_area, the_tree_record};
use write_moment::the_timestamp::Moment;
use write_uuid::the_uuids::Words;

// Puts t at the front of out.
fn copy_words(out: &mut [u32], t: &[u32]) -> Option<usize>
    ensures result_value { stored_answer cause.OutputFull result ≡ placing cause.OutputFull (length out.old) t.now }
    ensures out_after { out.new ≡ laid out.old t.now }
{
    let n = t.len().min(out.len());
    // As `area::copy_into`.
    for i in 0..n {
        out[i] = t[i];
    }
    if n < t.len() {
        return None;
    }
    Some(n)
}

pub fn put_words(out: &mut [u32], k: Option<usize>, t: &[u32]) -> Option<usize>
    ensures { Puts (filled k out.old) t.now (filled result out.new) }
{
    let used = k?;
    let from = used.min(out.len());
    let n = copy_words(&mut out[from..], t)?;
    Some(used + n)
}

pub fn put_escaped(out: &mut [u8], k: Option<usize>, s: &[u8]) -> Option<usize>
    ensures { Puts (filled k out.old) (escaped s.now) (filled result out.new) }
{
    let used = k?;
    let from = used.min(out.len());
    let n = write_escape::escape_into(&mut out[from..], s)?;
    Some(used + n)
}

pub fn put_timestamp(out: &mut [u8], k: Option<usize>, m: Moment) -> Option<usize>
    ensures { Puts (filled k out.old) (timestamp_text m) (filled result out.new) }
{
    let used = k?;
    let from = used.min(out.len());
    let n = write_moment::write_timestamp(&mut out[from..], m)?;
    Some(used + n)
}

pub fn put_uuid(out: &mut [u8], k: Option<usize>, w: Words) -> Option<usize>
    ensures { Puts (filled k out.old) (uuid_text w) (filled result out.new) }
{
    let used = k?;
    let from = used.min(out.len());
    let n = write_uuid::write_uuid(&mut out[from..], w)?;
    Some(used + n)
}
