// The elements of a draft: its report, a suite, a case and its main status element.
#![tactic(auto)]

ghost use Rattle.std.specs.Prelude.{◌≡◌, List, ℕ, length};
ghost use Rattle.build_kinds.specs.of_build_draft.Draft.{draft_of, next};
ghost use Rattle.build_kinds.specs.of_build_draft.Calls.{unnamed_report, open_suite, open_case, open_main, finish};

use build_counts::{count_case, sum_suite};
pub use build_kinds as the_build_kinds;
use build_kinds::main_kind;
use build_kinds::the_build_draft::{Builder, is_of, last_of, no_builder};
use build_kinds::the_refusal::{Cause, NOWHERE};
use build_kinds::the_tree_counts::Outcome;
use build_kinds::the_tree_record::kind;
pub use build_kinds::{the_build_draft, the_tree_counts};
use build_records::take_record;

// The report of a draft whose areas were cleared.
pub fn open_report(records: &mut [u32], text: &mut [u8]) -> Result<Builder, Cause>
    ensures { draft_of result records.new text.new ≡ unnamed_report (length records.old) (length text.old) }
{
    build_kinds::the_area::clear_words(records);
    build_kinds::the_area::clear(text);
    let b = take_record(no_builder(), records, kind::REPORT)?;
    Ok(Builder { report: 0, ..b })
}

pub fn open_suite(b: Builder, records: &mut [u32]) -> Result<Builder, Cause>
    ensures { (text : List ℕ) → draft_of result records.new text ≡ open_suite (record { builder = b; words = records.old; text = text }) }
{
    if !is_of(b, records, b.report, kind::REPORT) {
        return Err(Cause::NotLayout);
    }
    let c = sum_suite(b, records)?;
    let d = take_record(c, records, kind::SUITE)?;
    Ok(Builder {
        suite: last_of(d),
        case: NOWHERE,
        main: NOWHERE,
        ..d
    })
}

pub fn open_case(b: Builder, records: &mut [u32], outcome: Outcome) -> Result<Builder, Cause>
    ensures { (text : List ℕ) → draft_of result records.new text ≡ open_case outcome (record { builder = b; words = records.old; text = text }) }
{
    if !is_of(b, records, b.suite, kind::SUITE) {
        return Err(Cause::NotLayout);
    }
    let c = count_case(b, records, outcome)?;
    let d = take_record(c, records, kind::CASE)?;
    Ok(Builder {
        case: last_of(d),
        main: NOWHERE,
        ..d
    })
}

// The main status element of the case that was opened.
pub fn open_main(
    step: Result<Builder, Cause>,
    records: &mut [u32],
    outcome: Outcome,
) -> Result<Builder, Cause>
    ensures { (text : List ℕ) → draft_of result records.new text ≡ next (draft_of step records.old text) (open_main outcome) }
{
    let b = step?;
    let k = main_kind(outcome);
    if k == 0 {
        return Ok(b);
    }
    let c = take_record(b, records, k)?;
    Ok(Builder {
        main: last_of(c),
        ..c
    })
}

// The last suite is added to the sums, and nothing is open any more.
pub fn close_report(b: Builder, records: &mut [u32]) -> Result<Builder, Cause>
    ensures { (text : List ℕ) → draft_of result records.new text ≡ finish (record { builder = b; words = records.old; text = text }) }
{
    if !is_of(b, records, b.report, kind::REPORT) {
        return Err(Cause::NotLayout);
    }
    let c = sum_suite(b, records)?;
    Ok(Builder {
        records: c.records,
        bytes: c.bytes,
        ..no_builder()
    })
}
