// Runs of a draft's open case, and the family of a failure's or error's runs.
#![tactic(auto)]

ghost use Rattle.std.specs.Prelude.{◌≡◌, List, ℕ, ◌-◌, ◌≤◌};
ghost use Rattle.build_records.specs.of_tree_record.Bits as bit;
ghost use Rattle.build_records.specs.of_tree_record.Record.{unmarked};
ghost use Rattle.build_records.specs.of_build_draft.Draft.{draft_of};
ghost use Rattle.build_records.specs.of_build_draft.Parts.{run_kind, turned_kind, turned, turn_runs};
ghost use Rattle.build_runs.specs.inside.Runs.{family_by, add_to_main};
ghost use Rattle.build_records.specs.of_build_draft.Calls.{is_non_success, family_of, add_rerun, flagged, set_rerun_kind};

use build_records::take_record;
use build_records::the_area::least;
use build_records::the_build_draft::{
    Builder, FlakyOrRerun, NonSuccessKind, is_of, kind_at, last_of,
};
use build_records::the_refusal::{Cause, NOWHERE};
use build_records::the_tree_record::{bit, field, has_bit, kind, put_bit, put_field, word};

pub fn run_kind(family: FlakyOrRerun, k: NonSuccessKind) -> u32
    ensures { result ≡ run_kind family k }
{
    match family {
        FlakyOrRerun::Flaky => match k {
            NonSuccessKind::Failure => kind::FLAKY_FAILURE,
            NonSuccessKind::Error => kind::FLAKY_ERROR,
        },
        FlakyOrRerun::Rerun => match k {
            NonSuccessKind::Failure => kind::RERUN_FAILURE,
            NonSuccessKind::Error => kind::RERUN_ERROR,
        },
    }
}

// Takes the flaky bit from the record at the front of the part.
fn unmark_flaky(r: &mut [u32])
    ensures { r.new ≡ unmarked bit.flaky r.old }
{
    if has_bit(r, bit::FLAKY) {
        let bits = field(r, word::BITS);
        put_field(r, word::BITS, bits - 512);
    }
}

fn flag(r: &mut [u32], family: FlakyOrRerun)
    ensures { r.new ≡ flagged family r.old }
{
    match family {
        FlakyOrRerun::Flaky => put_bit(r, bit::FLAKY),
        FlakyOrRerun::Rerun => unmark_flaky(r),
    }
}

// Whether the open case has a failure or error.
fn is_non_success(b: Builder, words: &[u32]) -> bool
    ensures { (text : List ℕ) → result ≡ is_non_success (record { builder = b; words = words.now; text = text }) }
{
    is_of(b, words, b.main, kind::FAILURE) | is_of(b, words, b.main, kind::ERROR)
}

fn family_by(is_flaky: bool) -> FlakyOrRerun
    ensures { result ≡ family_by is_flaky }
{
    if is_flaky {
        return FlakyOrRerun::Flaky;
    }
    FlakyOrRerun::Rerun
}

// The family of the runs that stand behind the failure or error, and without any by its flaky bit (rule B9).
fn family_of(b: Builder, words: &[u32]) -> FlakyOrRerun
    ensures { (text : List ℕ) → result ≡ family_of (record { builder = b; words = words.now; text = text }) }
{
    if (b.main as usize) + 1 != (b.records as usize) {
        return family_by(kind_at(words, last_of(b)) <= kind::FLAKY_ERROR);
    }
    let at = least((b.main as usize) * 32, words.len());
    family_by(has_bit(&words[at..], bit::FLAKY))
}

// A run of the open case's failure or error.
fn take_run(b: Builder, records: &mut [u32], k: NonSuccessKind) -> Result<Builder, Cause>
    ensures { (text : List ℕ) → draft_of result records.new text ≡ add_to_main k (record { builder = b; words = records.old; text = text }) }
{
    if !is_non_success(b, records) {
        return Err(Cause::NotLayout);
    }
    let family = family_of(b, records);
    let at = least((b.main as usize) * 32, records.len());
    unmark_flaky(&mut records[at..]);
    take_record(b, records, run_kind(family, k))
}

// A run of the open case (rule B9).
pub fn open_run(b: Builder, records: &mut [u32], k: NonSuccessKind) -> Result<Builder, Cause>
    ensures { (text : List ℕ) → draft_of result records.new text ≡ add_rerun k (record { builder = b; words = records.old; text = text }) }
{
    if !is_of(b, records, b.case, kind::CASE) {
        return Err(Cause::NotLayout);
    }
    if b.main == NOWHERE {
        return take_record(b, records, run_kind(FlakyOrRerun::Flaky, k));
    }
    take_run(b, records, k)
}

fn turned_kind(family: FlakyOrRerun, k: u32) -> u32
    ensures { result ≡ turned_kind family k }
{
    match family {
        FlakyOrRerun::Flaky => { if kind::RERUN_FAILURE <= k { k - 2 } else { k } }
        FlakyOrRerun::Rerun => { if k <= kind::FLAKY_ERROR { k + 2 } else { k } }
    }
}

// The run at the front of the part.
fn turn(r: &mut [u32], family: FlakyOrRerun)
    ensures { r.new ≡ turned family r.old }
{
    put_field(r, word::KIND, turned_kind(family, field(r, word::KIND)));
}

// The runs from number `from` to before number `to`.
fn turn_runs(records: &mut [u32], family: FlakyOrRerun, from: usize, to: usize)
    requires { to ≤ 65536 }
    ensures { records.new ≡ turn_runs family from (to - from) records.old }
{
    for i in from..to {
        let at = least(i * 32, records.len());
        turn(&mut records[at..], family);
    }
}

// Sets the family of the runs of the open case's failure or error (rule B4), also while there are none.
pub fn turn_case(b: Builder, records: &mut [u32], family: FlakyOrRerun) -> Result<Builder, Cause>
    ensures { (text : List ℕ) → draft_of result records.new text ≡ set_rerun_kind family (record { builder = b; words = records.old; text = text }) }
{
    if !is_non_success(b, records) {
        return Err(Cause::NotLayout);
    }
    let from = (b.main as usize) + 1;
    let to = b.records as usize;
    if from != to {
        turn_runs(records, family, from, to);
        return Ok(b);
    }
    let at = least((b.main as usize) * 32, records.len());
    flag(&mut records[at..], family);
    Ok(b)
}
