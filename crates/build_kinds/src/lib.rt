// The kinds of a draft's records: of a property or extra by its holder, of a main status element; what may stand behind what.
#![tactic(auto)]

ghost use Rattle.std.specs.Prelude.{◌≡◌};
ghost use Rattle.build_draft.specs.Parts.{may_stand_behind};
ghost use Rattle.build_draft.specs.Calls.{main_kind, property_kind, extra_kind};

pub use build_draft as the_build_draft;
use build_draft::Holder;
use build_draft::the_tree_counts::Outcome;
use build_draft::the_tree_record::kind;
pub use build_draft::{the_area, the_refusal, the_tree_counts, the_tree_put, the_tree_record};

pub fn property_kind(holder: Holder) -> u32
    ensures { result ≡ property_kind holder }
{
    match holder {
        Holder::Suite => kind::SUITE_PROPERTY,
        Holder::Case => kind::CASE_PROPERTY,
    }
}

pub fn extra_kind(holder: Holder) -> u32
    ensures { result ≡ extra_kind holder }
{
    match holder {
        Holder::Suite => kind::SUITE_EXTRA,
        Holder::Case => kind::CASE_EXTRA,
    }
}

// 0 for success, which has none.
pub fn main_kind(outcome: Outcome) -> u32
    ensures { result ≡ main_kind outcome }
{
    match outcome {
        Outcome::Success => 0,
        Outcome::Failure => kind::FAILURE,
        Outcome::Error => kind::ERROR,
        Outcome::Skipped => kind::SKIPPED,
    }
}

// Whether a record of kind k, a property or extra, may stand behind one of kind `before` (rule B3).
pub fn may_stand_behind(k: u32, before: u32) -> bool
    ensures { result ≡ may_stand_behind k before }
{
    match k {
        kind::SUITE_EXTRA => matches!(before, kind::SUITE | kind::SUITE_EXTRA),
        kind::SUITE_PROPERTY => {
            matches!(
                before,
                kind::SUITE | kind::SUITE_EXTRA | kind::SUITE_PROPERTY
            )
        }
        kind::CASE_EXTRA => matches!(before, kind::CASE | kind::CASE_EXTRA),
        _ => matches!(before, kind::CASE | kind::CASE_EXTRA | kind::CASE_PROPERTY),
    }
}
