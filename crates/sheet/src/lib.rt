// The release sheet over a lent list of counts, one a report. The loop over a slice of structs is a thin function, proved by a walk of its
// own; what it does to the sums is `sheet_sums`.
#![tactic(auto)]

ghost use Rattle.std.specs.Prelude.{◌≡◌};
ghost use Rattle.sheet_sums.specs.Sheet.{release_sheet, released_from};

use sheet_sums::the_tree_counts::Counts;
use sheet_sums::{Released, add, begin, finish, taken};

// By rules C4 to C6.
pub fn release_sheet(records: &[Counts]) -> Released
    ensures { result ≡ released_from (release_sheet records.now) }
{
    let n = taken(records.len());
    let mut t = begin();
    for c in &records[..n] {
        t = add(t, *c);
    }
    finish(records.len(), t)
}

// A list of eight, for programs, which call by value: those that aren't needed are counts of no tests, which add nothing.
pub fn sheet_of_eight(records: [Counts; 8]) -> Released
    ensures { result ≡ released_from (release_sheet records) }
{
    release_sheet(&records)
}
