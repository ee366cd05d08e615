// Setters of a builder; at a refusal both areas become zero.
ghost use Rattle.std.specs.Prelude.{◌≡◌, length};
ghost use Rattle.port_values.specs.of_build_draft.Draft.{words_left_of, text_left};
ghost use Rattle.port_values.specs.of_build_draft.Calls.{set_text, set_output_lossy, set_timestamp, set_time, set_uuid, set_number, set_rerun_kind};
ghost use Rattle.port_values.specs.Values.{built_port, plain_moment, plain_uuid};
ghost use Rattle.port_values.specs.Codes.{coded, elements, element_at, fields, field_at, numbers, number_at, families, family_at};

use port_values::codes::{
    ELEMENTS, FIELDS, NUMBERS, element_at, family_at, field_at, is_family, number_at,
};
use port_values::the_build_draft::Builder;
use port_values::{KBuilt, KMoment, KUuid, built, not_built, plain_moment, plain_uuid};

#[unsafe(no_mangle)]
pub extern "C" fn kerzhoma_set_text(
    b: Builder,
    records: &mut [u32],
    text: &mut [u8],
    element: u32,
    field: u32,
    s: &[u8],
) -> KBuilt
    ensures value { result ≡ built_port (coded elements element
        (coded fields field (set_text (element_at element) (field_at field) s.now (record { builder = b; words = records.old; text = text.old })))) }
    ensures records_after { records.new ≡ words_left_of (length records.old) (coded elements element
        (coded fields field (set_text (element_at element) (field_at field) s.now (record { builder = b; words = records.old; text = text.old })))) }
    ensures text_after { text.new ≡ text_left (length text.old) (coded elements element
        (coded fields field (set_text (element_at element) (field_at field) s.now (record { builder = b; words = records.old; text = text.old })))) }
{
    if element >= ELEMENTS {
        return not_built(records, text);
    }
    if field >= FIELDS {
        return not_built(records, text);
    }
    built(builder_set::set_text(b, records, text, element_at(element), field_at(field), s))
}

#[unsafe(no_mangle)]
pub extern "C" fn kerzhoma_set_output_lossy(
    b: Builder,
    records: &mut [u32],
    text: &mut [u8],
    element: u32,
    field: u32,
    s: &[u8],
) -> KBuilt
    ensures value { result ≡ built_port (coded elements element
        (coded fields field (set_output_lossy (element_at element) (field_at field) s.now (record { builder = b; words = records.old; text = text.old })))) }
    ensures records_after { records.new ≡ words_left_of (length records.old) (coded elements element
        (coded fields field (set_output_lossy (element_at element) (field_at field) s.now (record { builder = b; words = records.old; text = text.old })))) }
    ensures text_after { text.new ≡ text_left (length text.old) (coded elements element
        (coded fields field (set_output_lossy (element_at element) (field_at field) s.now (record { builder = b; words = records.old; text = text.old })))) }
{
    if element >= ELEMENTS {
        return not_built(records, text);
    }
    if field >= FIELDS {
        return not_built(records, text);
    }
    built(builder_set::set_output_lossy(b, records, text, element_at(element), field_at(field), s))
}

#[unsafe(no_mangle)]
pub extern "C" fn kerzhoma_set_timestamp(
    b: Builder,
    records: &mut [u32],
    text: &mut [u8],
    element: u32,
    m: KMoment,
) -> KBuilt
    ensures value { result ≡ built_port (coded elements element (set_timestamp (element_at element) (plain_moment m) (record { builder = b; words = records.old; text = text.old }))) }
    ensures records_after { records.new ≡ words_left_of (length records.old)
        (coded elements element (set_timestamp (element_at element) (plain_moment m) (record { builder = b; words = records.old; text = text.old }))) }
    ensures text_after { text.new ≡ text_left (length text.old)
        (coded elements element (set_timestamp (element_at element) (plain_moment m) (record { builder = b; words = records.old; text = text.old }))) }
{
    if element >= ELEMENTS {
        return not_built(records, text);
    }
    built(builder_set::set_timestamp(b, records, text, element_at(element), plain_moment(m)))
}

#[unsafe(no_mangle)]
pub extern "C" fn kerzhoma_set_time(
    b: Builder,
    records: &mut [u32],
    text: &mut [u8],
    element: u32,
    seconds: u32,
    nanos: u32,
) -> KBuilt
    ensures value { result ≡ built_port (coded elements element (set_time (element_at element) seconds nanos (record { builder = b; words = records.old; text = text.old }))) }
    ensures records_after { records.new ≡ words_left_of (length records.old)
        (coded elements element (set_time (element_at element) seconds nanos (record { builder = b; words = records.old; text = text.old }))) }
    ensures text_after { text.new ≡ text_left (length text.old)
        (coded elements element (set_time (element_at element) seconds nanos (record { builder = b; words = records.old; text = text.old }))) }
{
    if element >= ELEMENTS {
        return not_built(records, text);
    }
    built(builder_set::set_time(b, records, text, element_at(element), seconds, nanos))
}

#[unsafe(no_mangle)]
pub extern "C" fn kerzhoma_set_uuid(
    b: Builder,
    records: &mut [u32],
    text: &mut [u8],
    w: KUuid,
) -> KBuilt
    ensures value { result ≡ built_port (set_uuid (plain_uuid w) (record { builder = b; words = records.old; text = text.old })) }
    ensures records_after { records.new ≡ words_left_of (length records.old) (set_uuid (plain_uuid w) (record { builder = b; words = records.old; text = text.old })) }
    ensures text_after { text.new ≡ text_left (length text.old) (set_uuid (plain_uuid w) (record { builder = b; words = records.old; text = text.old })) }
{
    built(builder_set::set_uuid(b, records, text, plain_uuid(w)))
}

#[unsafe(no_mangle)]
pub extern "C" fn kerzhoma_set_number(
    b: Builder,
    records: &mut [u32],
    text: &mut [u8],
    field: u32,
    n: u64,
) -> KBuilt
    ensures value { result ≡ built_port (coded numbers field (set_number (number_at field) n (record { builder = b; words = records.old; text = text.old }))) }
    ensures records_after { records.new
        ≡ words_left_of (length records.old) (coded numbers field (set_number (number_at field) n (record { builder = b; words = records.old; text = text.old }))) }
    ensures text_after { text.new
        ≡ text_left (length text.old) (coded numbers field (set_number (number_at field) n (record { builder = b; words = records.old; text = text.old }))) }
{
    if field >= NUMBERS {
        return not_built(records, text);
    }
    built(builder_set::set_number(b, records, text, number_at(field), n))
}

#[unsafe(no_mangle)]
pub extern "C" fn kerzhoma_set_rerun_kind(
    b: Builder,
    records: &mut [u32],
    text: &mut [u8],
    family: u32,
) -> KBuilt
    ensures value { result ≡ built_port (coded families family (set_rerun_kind (family_at family) (record { builder = b; words = records.old; text = text.old }))) }
    ensures records_after { records.new
        ≡ words_left_of (length records.old) (coded families family (set_rerun_kind (family_at family) (record { builder = b; words = records.old; text = text.old }))) }
    ensures text_after { text.new
        ≡ text_left (length text.old) (coded families family (set_rerun_kind (family_at family) (record { builder = b; words = records.old; text = text.old }))) }
{
    if !is_family(family) {
        return not_built(records, text);
    }
    built(builder_set::set_rerun_kind(b, records, text, family_at(family)))
}
