// Variants by their codes, which are their places, from 0 on. What a code that is none gives doesn't count: calls refuse it before.
ghost use Rattle.std.specs.Prelude.{◌≡◌, ltb, length};
ghost use Rattle.port_values.specs.Codes.{outcome_at, element_at, holder_at, field_at, number_at, kind_at, families, family_at};

use build_draft::the_tree_counts::Outcome;
use build_draft::{Element, FlakyOrRerun, Holder, NonSuccessKind, NumberField, TextField};

pub const OUTCOMES: u32 = 4;

pub const ELEMENTS: u32 = 5;

pub const HOLDERS: u32 = 2;

pub const FIELDS: u32 = 8;

pub const NUMBERS: u32 = 2;

pub const KINDS: u32 = 2;

const FAMILIES: u32 = 2;

pub fn outcome_at(code: u32) -> Outcome
    ensures { result ≡ outcome_at code }
{
    match code {
        0 => Outcome::Success,
        1 => Outcome::Failure,
        2 => Outcome::Error,
        _ => Outcome::Skipped,
    }
}

pub fn element_at(code: u32) -> Element
    ensures { result ≡ element_at code }
{
    match code {
        0 => Element::Report,
        1 => Element::Suite,
        2 => Element::Case,
        3 => Element::Status,
        _ => Element::Last,
    }
}

pub fn holder_at(code: u32) -> Holder
    ensures { result ≡ holder_at code }
{
    match code {
        0 => Holder::Suite,
        _ => Holder::Case,
    }
}

pub fn field_at(code: u32) -> TextField
    ensures { result ≡ field_at code }
{
    match code {
        0 => TextField::Classname,
        1 => TextField::Message,
        2 => TextField::Ty,
        3 => TextField::Description,
        4 => TextField::StackTrace,
        5 => TextField::SystemOut,
        6 => TextField::SystemErr,
        _ => TextField::Hostname,
    }
}

pub fn number_at(code: u32) -> NumberField
    ensures { result ≡ number_at code }
{
    match code {
        0 => NumberField::Assertions,
        _ => NumberField::Disabled,
    }
}

pub fn kind_at(code: u32) -> NonSuccessKind
    ensures { result ≡ kind_at code }
{
    match code {
        0 => NonSuccessKind::Failure,
        _ => NonSuccessKind::Error,
    }
}

pub fn is_family(code: u32) -> bool
    ensures { result ≡ ltb code (length families) }
{
    code < FAMILIES
}

pub fn family_at(code: u32) -> FlakyOrRerun
    ensures { result ≡ family_at code }
{
    match code {
        0 => FlakyOrRerun::Flaky,
        _ => FlakyOrRerun::Rerun,
    }
}
