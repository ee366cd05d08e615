// Reports made from nothing, in two areas that the caller lends. Each call takes the builder that the call before gave; at a refusal both
// areas become zero.
ghost use Rattle.std.specs.Prelude.{◌≡◌, length};
ghost use Rattle.port_values.specs.of_build_draft.Draft.{words_left_of, text_left};
ghost use Rattle.port_values.specs.of_build_draft.Calls.{unnamed_report, new_report, add_test_suite, add_test_case, add_rerun, add_property, add_extra, finish};
ghost use Rattle.port_values.specs.Values.{built_port};
ghost use Rattle.port_values.specs.Codes.{coded, outcomes, outcome_at, kinds, kind_at, holders, holder_at};

use port_values::codes::{HOLDERS, KINDS, OUTCOMES, holder_at, kind_at, outcome_at};
use port_values::the_build_draft::Builder;
use port_values::{KBuilt, built, not_built};

// What the areas held before doesn't count.
#[unsafe(no_mangle)]
pub extern "C" fn kerzhoma_unnamed_report(records: &mut [u32], text: &mut [u8]) -> KBuilt
    ensures value { result ≡ built_port (unnamed_report (length records.old) (length text.old)) }
    ensures records_after { records.new ≡ words_left_of (length records.old) (unnamed_report (length records.old) (length text.old)) }
    ensures text_after { text.new ≡ text_left (length text.old) (unnamed_report (length records.old) (length text.old)) }
{
    built(builder::unnamed_report(records, text))
}

#[unsafe(no_mangle)]
pub extern "C" fn kerzhoma_new_report(records: &mut [u32], text: &mut [u8], name: &[u8]) -> KBuilt
    ensures value { result ≡ built_port (new_report name.now (length records.old) (length text.old)) }
    ensures records_after { records.new ≡ words_left_of (length records.old) (new_report name.now (length records.old) (length text.old)) }
    ensures text_after { text.new ≡ text_left (length text.old) (new_report name.now (length records.old) (length text.old)) }
{
    built(builder::new_report(records, text, name))
}

#[unsafe(no_mangle)]
pub extern "C" fn kerzhoma_add_test_suite(
    b: Builder,
    records: &mut [u32],
    text: &mut [u8],
    name: &[u8],
) -> KBuilt
    ensures value { result ≡ built_port (add_test_suite name.now (record { builder = b; words = records.old; text = text.old })) }
    ensures records_after { records.new ≡ words_left_of (length records.old) (add_test_suite name.now (record { builder = b; words = records.old; text = text.old })) }
    ensures text_after { text.new ≡ text_left (length text.old) (add_test_suite name.now (record { builder = b; words = records.old; text = text.old })) }
{
    built(builder::add_test_suite(b, records, text, name))
}

#[unsafe(no_mangle)]
pub extern "C" fn kerzhoma_add_test_case(
    b: Builder,
    records: &mut [u32],
    text: &mut [u8],
    name: &[u8],
    outcome: u32,
) -> KBuilt
    ensures value { result ≡ built_port (coded outcomes outcome (add_test_case name.now (outcome_at outcome) (record { builder = b; words = records.old; text = text.old }))) }
    ensures records_after { records.new ≡ words_left_of (length records.old)
        (coded outcomes outcome (add_test_case name.now (outcome_at outcome) (record { builder = b; words = records.old; text = text.old }))) }
    ensures text_after { text.new ≡ text_left (length text.old)
        (coded outcomes outcome (add_test_case name.now (outcome_at outcome) (record { builder = b; words = records.old; text = text.old }))) }
{
    if outcome >= OUTCOMES {
        return not_built(records, text);
    }
    built(builder::add_test_case(b, records, text, name, outcome_at(outcome)))
}

#[unsafe(no_mangle)]
pub extern "C" fn kerzhoma_add_rerun(
    b: Builder,
    records: &mut [u32],
    text: &mut [u8],
    kind: u32,
) -> KBuilt
    ensures value { result ≡ built_port (coded kinds kind (add_rerun (kind_at kind) (record { builder = b; words = records.old; text = text.old }))) }
    ensures records_after { records.new
        ≡ words_left_of (length records.old) (coded kinds kind (add_rerun (kind_at kind) (record { builder = b; words = records.old; text = text.old }))) }
    ensures text_after { text.new ≡ text_left (length text.old) (coded kinds kind (add_rerun (kind_at kind) (record { builder = b; words = records.old; text = text.old }))) }
{
    if kind >= KINDS {
        return not_built(records, text);
    }
    built(builder::add_rerun(b, records, text, kind_at(kind)))
}

#[unsafe(no_mangle)]
pub extern "C" fn kerzhoma_add_property(
    b: Builder,
    records: &mut [u32],
    text: &mut [u8],
    holder: u32,
    name: &[u8],
    value: &[u8],
) -> KBuilt
    ensures value { result ≡ built_port (coded holders holder
        (add_property (holder_at holder) name.now value.now (record { builder = b; words = records.old; text = text.old }))) }
    ensures records_after { records.new ≡ words_left_of (length records.old)
        (coded holders holder (add_property (holder_at holder) name.now value.now (record { builder = b; words = records.old; text = text.old }))) }
    ensures text_after { text.new ≡ text_left (length text.old)
        (coded holders holder (add_property (holder_at holder) name.now value.now (record { builder = b; words = records.old; text = text.old }))) }
{
    if holder >= HOLDERS {
        return not_built(records, text);
    }
    built(builder::add_property(b, records, text, holder_at(holder), name, value))
}

#[unsafe(no_mangle)]
pub extern "C" fn kerzhoma_add_extra(
    b: Builder,
    records: &mut [u32],
    text: &mut [u8],
    holder: u32,
    key: &[u8],
    value: &[u8],
) -> KBuilt
    ensures value { result
        ≡ built_port (coded holders holder (add_extra (holder_at holder) key.now value.now (record { builder = b; words = records.old; text = text.old }))) }
    ensures records_after { records.new ≡ words_left_of (length records.old)
        (coded holders holder (add_extra (holder_at holder) key.now value.now (record { builder = b; words = records.old; text = text.old }))) }
    ensures text_after { text.new ≡ text_left (length text.old)
        (coded holders holder (add_extra (holder_at holder) key.now value.now (record { builder = b; words = records.old; text = text.old }))) }
{
    if holder >= HOLDERS {
        return not_built(records, text);
    }
    built(builder::add_extra(b, records, text, holder_at(holder), key, value))
}

#[unsafe(no_mangle)]
pub extern "C" fn kerzhoma_finish_report(b: Builder, records: &mut [u32], text: &mut [u8]) -> KBuilt
    ensures value { result ≡ built_port (finish (record { builder = b; words = records.old; text = text.old })) }
    ensures records_after { records.new ≡ words_left_of (length records.old) (finish (record { builder = b; words = records.old; text = text.old })) }
    ensures text_after { text.new ≡ text_left (length text.old) (finish (record { builder = b; words = records.old; text = text.old })) }
{
    built(builder::finish_report(b, records, text))
}
