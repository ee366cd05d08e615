// Pieces of gathered text, into scratch from its mark on.
#![tactic(auto)]

ghost use Rattle.std.specs.Prelude.{◌≡◌, Err, length};
ghost use Rattle.text.specs.of_area.Answer.{refuses};
ghost use Rattle.text.specs.of_reference.Reference.{unnamed};
ghost use Rattle.text.specs.Kept.{kept_answer};
ghost use Rattle.text_pieces.specs.Gather.{text_of, text_laid, cdata_of, cdata_laid, reference_of, reference_laid, indent_of, indent_laid};
ghost use Rattle.text.specs.of_refusal.declared.Cause.TheVariants as cause;

pub use text as the_text;
use text::decode::put_decoded;
use text::kept::{Unkept, kept_of};
use text::the_area::copy_into;
use text::the_reference::named_by;
use text::the_utf8::is_utf8;
use text::the_utf8_chars::encode_of;
pub use text::{the_names, the_reference, the_text_filter};

// By rule X9.
pub fn gather_text(out: &mut [u8], s: &[u8]) -> Result<usize, Unkept>
    ensures result_value { kept_answer cause.ScratchFull result ≡ text_of (length out.old) s.now }
    ensures out_after { out.new ≡ text_laid out.old s.now }
{
    put_decoded(out, s, false)
}

// By rule X9.
pub fn gather_cdata(out: &mut [u8], s: &[u8]) -> Result<usize, Unkept>
    ensures result_value { kept_answer cause.ScratchFull result ≡ cdata_of (length out.old) s.now }
    ensures out_after { out.new ≡ cdata_laid out.old s.now }
{
    if is_utf8(s) {
        return kept_of(copy_into(out, s));
    }
    Err(Unkept::NotUtf8)
}

// Why a name that stands for no character is refused (rules X6 and X7).
fn unnamed_by(name: &[u8]) -> Unkept
    ensures { kept_answer cause.ScratchFull (Err result) ≡ refuses (unnamed name.now) }
{
    if name.starts_with(b"#") {
        Unkept::BadReference
    } else {
        Unkept::UnknownName
    }
}

// The name of a Ref event (rules X6 and X7).
pub fn gather_reference(out: &mut [u8], name: &[u8]) -> Result<usize, Unkept>
    ensures result_value { kept_answer cause.ScratchFull result ≡ reference_of (length out.old) name.now }
    ensures out_after { out.new ≡ reference_laid out.old name.now }
{
    if !is_utf8(name) {
        return Err(Unkept::NotUtf8);
    }
    let Some(c) = named_by(name) else {
        return Err(unnamed_by(name));
    };
    let e = encode_of(c);
    kept_of(copy_into(out, &e.bytes[..e.n]))
}

// By rule T4.
pub fn gather_indent(out: &mut [u8]) -> Result<usize, Unkept>
    ensures result_value { kept_answer cause.ScratchFull result ≡ indent_of (length out.old) }
    ensures out_after { out.new ≡ indent_laid out.old }
{
    kept_of(copy_into(out, b"\n"))
}
