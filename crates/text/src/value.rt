// Attribute text: checked, and decoded, filtered and stored in one go, with no other memory.
ghost use Rattle.std.specs.Prelude.{◌≡◌, length};
ghost use Rattle.text.specs.Kept.{kept_answer};
ghost use Rattle.text.specs.Value.{checked_answer, checked_of, value_of, value_laid};
ghost use Rattle.utf8_chars.specs.of_refusal.declared.Cause.TheVariants as cause;

use crate::decode::put_decoded;
use crate::kept::Unkept;
use reference::refs_ok;
use utf8_chars::the_refusal::Cause;
use utf8_chars::the_utf8::is_utf8;

// By rule X5.
pub fn check_value(s: &[u8]) -> Result<(), Cause>
    ensures { checked_answer result ≡ checked_of s.now }
{
    if !is_utf8(s) {
        return Err(Cause::NotUtf8);
    }
    if !refs_ok(s) {
        return Err(Cause::BadReference);
    }
    Ok(())
}

// By rule X1.
pub fn store_value(out: &mut [u8], s: &[u8]) -> Result<usize, Unkept>
    ensures result_value { kept_answer cause.TextFull result ≡ value_of (length out.old) s.now }
    ensures out_after { out.new ≡ value_laid out.old s.now }
{
    put_decoded(out, s, true)
}
