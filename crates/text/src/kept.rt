// What becomes of a text that is put into a lent area.
ghost use Rattle.std.specs.Prelude.{◌≡◌};
ghost use Rattle.utf8_chars.specs.of_area.Area.{stored_answer};
ghost use Rattle.text.specs.Kept.{kept_answer};
ghost use Rattle.utf8_chars.specs.of_refusal.declared.Cause.{Cause};

// Why it isn't there.
#[derive(Clone, Copy, PartialEq, Eq)]
pub enum Unkept {
    Full,
    NotUtf8,
    BadReference,
    UnknownName,
}

// How many bytes it took, for an area of either kind.
pub fn kept_of(put: Option<usize>) -> Result<usize, Unkept>
    ensures { (short : Cause) → kept_answer short result ≡ stored_answer short put }
{
    put.ok_or(Unkept::Full)
}
