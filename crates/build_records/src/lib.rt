// Records of a draft: one more, two exchanged.
#![tactic(auto)]

ghost use Rattle.std.specs.Prelude.{◌≡◌, List, ℕ, ◌+◌, ◌*◌, ◌≤◌, length};
ghost use Rattle.build_draft.specs.Draft.{draft_of};
ghost use Rattle.build_draft.specs.Parts.{taking, exchanged};

pub use build_draft as the_build_draft;
use build_draft::the_refusal::Cause;
use build_draft::the_tree_record::put_field;
pub use build_draft::{the_area, the_refusal, the_tree_record};
use build_draft::{Builder, room_for};

// A record more, of a kind.
pub fn take_record(b: Builder, records: &mut [u32], kind: u32) -> Result<Builder, Cause>
    ensures { (text : List ℕ) → draft_of result records.new text ≡ taking kind (record { builder = b; words = records.old; text = text }) }
{
    let n = b.records as usize;
    if room_for(records) <= n {
        return Err(Cause::RecordsSpent);
    }
    put_field(records, n * 32, kind);
    Ok(Builder {
        records: (n + 1) as u32,
        ..b
    })
}

// Exchanges the records i and i + 1.
pub fn exchange(records: &mut [u32], i: usize)
    requires { (i + 2) * 32 ≤ length records.old }
    ensures { records.new ≡ exchanged i records.old }
{
    let at = i * 32;
    // Not `rotate_left`, which goes through four KiB of the library's own: five times as long.
    for j in 0..32usize {
        records.swap(at + j, at + j + 32);
    }
}
