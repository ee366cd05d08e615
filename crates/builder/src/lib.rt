// Reports made from nothing (report.rs of the crate): a builder goes forward through two areas that the caller lends. Each call takes
// the builder that the call before gave; at a refusal both areas become zero.
#![tactic(auto)]

ghost use Rattle.std.specs.Prelude.{◌≡◌, length};
ghost use Rattle.build_elements.specs.of_build_draft.Draft.{draft_of, built_from, words_left_of, text_left};
ghost use Rattle.build_elements.specs.of_build_draft.Calls.{unnamed_report, new_report, add_test_suite, add_test_case, add_rerun, add_property, add_extra, finish};

use build_elements::the_build_draft::the_refusal::Cause;
use build_elements::the_build_draft::{Builder, Built, Holder, NonSuccessKind, settle};
use build_elements::the_build_kinds::{extra_kind, property_kind};
use build_elements::the_tree_counts::Outcome;
use build_elements::{close_report, open_case, open_main, open_report, open_suite};
use build_pairs::add_pair;
use build_pairs::the_build_text::put_name;
use build_runs::open_run;

// By rule B1.
pub fn unnamed_report(records: &mut [u32], text: &mut [u8]) -> Built
    ensures value { result ≡ built_from (unnamed_report (length records.old) (length text.old)) }
    ensures records_after { records.new ≡ words_left_of (length records.old) (unnamed_report (length records.old) (length text.old)) }
    ensures text_after { text.new ≡ text_left (length text.old) (unnamed_report (length records.old) (length text.old)) }
{
    let step = open_report(records, text);
    settle(step, records, text)
}

// A report with its name.
fn open_named(records: &mut [u32], text: &mut [u8], name: &[u8]) -> Result<Builder, Cause>
    ensures { draft_of result records.new text.new ≡ new_report name.now (length records.old) (length text.old) }
{
    let step = open_report(records, text);
    put_name(step, records, text, name)
}

// By rule B1.
pub fn new_report(records: &mut [u32], text: &mut [u8], name: &[u8]) -> Built
    ensures value { result ≡ built_from (new_report name.now (length records.old) (length text.old)) }
    ensures records_after { records.new ≡ words_left_of (length records.old) (new_report name.now (length records.old) (length text.old)) }
    ensures text_after { text.new ≡ text_left (length text.old) (new_report name.now (length records.old) (length text.old)) }
{
    let step = open_named(records, text, name);
    settle(step, records, text)
}

fn begin_suite(
    b: Builder,
    records: &mut [u32],
    text: &mut [u8],
    name: &[u8],
) -> Result<Builder, Cause>
    ensures { draft_of result records.new text.new ≡ add_test_suite name.now (record { builder = b; words = records.old; text = text.old }) }
{
    let step = open_suite(b, records);
    put_name(step, records, text, name)
}

// By rule B2. The suite is open from then on; the one before is added to the report's sums (rule B8).
pub fn add_test_suite(b: Builder, records: &mut [u32], text: &mut [u8], name: &[u8]) -> Built
    ensures value { result ≡ built_from (add_test_suite name.now (record { builder = b; words = records.old; text = text.old })) }
    ensures records_after { records.new ≡ words_left_of (length records.old) (add_test_suite name.now (record { builder = b; words = records.old; text = text.old })) }
    ensures text_after { text.new ≡ text_left (length text.old) (add_test_suite name.now (record { builder = b; words = records.old; text = text.old })) }
{
    let step = begin_suite(b, records, text, name);
    settle(step, records, text)
}

fn begin_case(
    b: Builder,
    records: &mut [u32],
    text: &mut [u8],
    name: &[u8],
    outcome: Outcome,
) -> Result<Builder, Cause>
    ensures { draft_of result records.new text.new ≡ add_test_case name.now outcome (record { builder = b; words = records.old; text = text.old }) }
{
    let step = open_case(b, records, outcome);
    let named = put_name(step, records, text, name);
    open_main(named, records, outcome)
}

// By rules B2 and B5. The case is open from then on; its status counts at once (rule B8).
pub fn add_test_case(
    b: Builder,
    records: &mut [u32],
    text: &mut [u8],
    name: &[u8],
    outcome: Outcome,
) -> Built
    ensures value { result ≡ built_from (add_test_case name.now outcome (record { builder = b; words = records.old; text = text.old })) }
    ensures records_after { records.new
        ≡ words_left_of (length records.old) (add_test_case name.now outcome (record { builder = b; words = records.old; text = text.old })) }
    ensures text_after { text.new ≡ text_left (length text.old) (add_test_case name.now outcome (record { builder = b; words = records.old; text = text.old })) }
{
    let step = begin_case(b, records, text, name, outcome);
    settle(step, records, text)
}

// A run of the open case.
pub fn add_rerun(b: Builder, records: &mut [u32], text: &mut [u8], k: NonSuccessKind) -> Built
    ensures value { result ≡ built_from (add_rerun k (record { builder = b; words = records.old; text = text.old })) }
    ensures records_after { records.new ≡ words_left_of (length records.old) (add_rerun k (record { builder = b; words = records.old; text = text.old })) }
    ensures text_after { text.new ≡ text_left (length text.old) (add_rerun k (record { builder = b; words = records.old; text = text.old })) }
{
    let step = open_run(b, records, k);
    settle(step, records, text)
}

// A property of the open suite, before its cases, or of the open case, before its runs; both behind the extras.
pub fn add_property(
    b: Builder,
    records: &mut [u32],
    text: &mut [u8],
    holder: Holder,
    name: &[u8],
    value: &[u8],
) -> Built
    ensures value { result ≡ built_from (add_property holder name.now value.now (record { builder = b; words = records.old; text = text.old })) }
    ensures records_after { records.new
        ≡ words_left_of (length records.old) (add_property holder name.now value.now (record { builder = b; words = records.old; text = text.old })) }
    ensures text_after { text.new
        ≡ text_left (length text.old) (add_property holder name.now value.now (record { builder = b; words = records.old; text = text.old })) }
{
    let step = add_pair(b, records, text, property_kind(holder), name, value);
    settle(step, records, text)
}

// An extra attribute of the open suite or case, before its properties; one with the same key gets the new value.
pub fn add_extra(
    b: Builder,
    records: &mut [u32],
    text: &mut [u8],
    holder: Holder,
    key: &[u8],
    value: &[u8],
) -> Built
    ensures value { result ≡ built_from (add_extra holder key.now value.now (record { builder = b; words = records.old; text = text.old })) }
    ensures records_after { records.new
        ≡ words_left_of (length records.old) (add_extra holder key.now value.now (record { builder = b; words = records.old; text = text.old })) }
    ensures text_after { text.new
        ≡ text_left (length text.old) (add_extra holder key.now value.now (record { builder = b; words = records.old; text = text.old })) }
{
    let step = add_pair(b, records, text, extra_kind(holder), key, value);
    settle(step, records, text)
}

// The report ends: the last suite is added to its sums, and nothing is open any more.
pub fn finish_report(b: Builder, records: &mut [u32], text: &mut [u8]) -> Built
    ensures value { result ≡ built_from (finish (record { builder = b; words = records.old; text = text.old })) }
    ensures records_after { records.new ≡ words_left_of (length records.old) (finish (record { builder = b; words = records.old; text = text.old })) }
    ensures text_after { text.new ≡ text_left (length text.old) (finish (record { builder = b; words = records.old; text = text.old })) }
{
    let step = close_report(b, records);
    settle(step, records, text)
}
