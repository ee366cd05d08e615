// What keeps two trees from being merged: their times together, and the room for the merged tree.
#![tactic(auto)]

ghost use Rattle.std.specs.Prelude.{◌≡◌, leb};
ghost use Rattle.merge_limits.specs.inside.Limits.{step_answer, room_by};

use area::the_refusal::Cause;

// Whether so many nanoseconds reach 8,388,608 seconds (22).
pub fn is_long(nanos: u64) -> bool
    ensures { result ≡ leb 8388608000000000 nanos }
{
    8388608000000000 <= nanos
}

// 12, then 13: so many records beside the report's, and so many bytes, in areas of these lengths.
pub fn room_by(records: usize, bytes: u64, words: usize, room: usize) -> Result<(), Cause>
    ensures { step_answer result ≡ room_by records bytes words room }
{
    let spent = words / 32 <= records;
    let full = (room as u64) < bytes;
    if spent {
        return Err(Cause::RecordsSpent);
    }
    if full {
        return Err(Cause::TextFull);
    }
    Ok(())
}
