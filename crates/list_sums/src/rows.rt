// Records one behind the other, and their kinds.
ghost use Rattle.std.specs.Prelude.{◌≡◌, ◌&&◌, ◌||◌, leb, eqb};
ghost use Rattle.list_text.specs.of_tree_record.Kinds as kinds;
ghost use Rattle.list_sums.specs.inside.Rows.{stands};

use list_text::the_tree_record::{kind, word};

// Whether words begin with a record.
pub fn stands_here(words: &[u32]) -> bool
    ensures { result ≡ stands words.now }
{
    if words.len() < 32 {
        return false;
    }
    words[word::KIND] != 0
}

// A case's records end at the next suite or case.
pub fn ends_case(k: u32) -> bool
    ensures { result ≡ (eqb k kinds.suite || eqb k kinds.case) }
{
    (k == kind::SUITE) | (k == kind::CASE)
}

pub fn is_run(k: u32) -> bool
    ensures { result ≡ (leb kinds.flaky_failure k && leb k kinds.rerun_error) }
{
    (kind::FLAKY_FAILURE <= k) & (k <= kind::RERUN_ERROR)
}
