// Which attributes an element reads, and where they go: the `match attr.key` of deserialize.rs, element by element.
#![tactic(auto)]

ghost use Rattle.std.specs.Prelude.{◌≡◌};
ghost use Rattle.read_keys.specs.Roles.{report_role, suite_role, case_role, property_role, status_role, role_of};

use schema::the_names::key::{
    ASSERTIONS, CLASSNAME, DISABLED, ERRORS, FAILURES, HOSTNAME, MESSAGE, NAME, SKIPPED, TESTS,
    TIME, TIMESTAMP, TYPE, UUID, VALUE,
};
use schema::the_tree_record::{bit, kind, word};

// What a value is read as: a text with its word and presence bit; a count with its word, without or with a presence bit; a
// UUID; a timestamp and a time, kept or dropped; an extra; nothing.
#[derive(Clone, Copy)]
pub enum Role {
    Text(usize, u32),
    Count(usize),
    Number(usize, u32),
    Uuid,
    Timestamp(bool),
    Time(bool),
    Extra,
    Ignored,
}

// By rule A5.
fn report_role(key: usize) -> Role
    ensures { result ≡ report_role key }
{
    match key {
        NAME => Role::Text(word::NAME, bit::NAME),
        UUID => Role::Uuid,
        TIMESTAMP => Role::Timestamp(true),
        TIME => Role::Time(true),
        TESTS => Role::Count(word::TESTS),
        FAILURES => Role::Count(word::FAILURES),
        ERRORS => Role::Count(word::ERRORS),
        SKIPPED => Role::Count(word::SKIPPED),
        DISABLED => Role::Number(word::DISABLED, bit::DISABLED),
        _ => Role::Ignored,
    }
}

// By rule A5.
fn suite_role(key: usize) -> Role
    ensures { result ≡ suite_role key }
{
    match key {
        NAME => Role::Text(word::NAME, bit::NAME),
        TIMESTAMP => Role::Timestamp(true),
        TIME => Role::Time(true),
        TESTS => Role::Count(word::TESTS),
        FAILURES => Role::Count(word::FAILURES),
        ERRORS => Role::Count(word::ERRORS),
        SKIPPED => Role::Count(word::SKIPPED),
        DISABLED => Role::Number(word::DISABLED, bit::DISABLED),
        HOSTNAME => Role::Text(word::HOSTNAME, bit::HOSTNAME),
        _ => Role::Extra,
    }
}

// By rule A5.
fn case_role(key: usize) -> Role
    ensures { result ≡ case_role key }
{
    match key {
        NAME => Role::Text(word::NAME, bit::NAME),
        CLASSNAME => Role::Text(word::CLASSNAME, bit::CLASSNAME),
        TIMESTAMP => Role::Timestamp(true),
        TIME => Role::Time(true),
        ASSERTIONS => Role::Number(word::ASSERTIONS, bit::ASSERTIONS),
        _ => Role::Extra,
    }
}

// By rule A6.
fn property_role(key: usize) -> Role
    ensures { result ≡ property_role key }
{
    match key {
        NAME => Role::Text(word::NAME, bit::NAME),
        VALUE => Role::Text(word::VALUE, bit::VALUE),
        _ => Role::Ignored,
    }
}

// By rule A6; a main's time and timestamp are dropped (rule S12).
fn status_role(run: bool, key: usize) -> Role
    ensures { result ≡ status_role run key }
{
    match key {
        TIMESTAMP => Role::Timestamp(run),
        TIME => Role::Time(run),
        MESSAGE => Role::Text(word::MESSAGE, bit::MESSAGE),
        TYPE => Role::Text(word::TYPE, bit::TYPE),
        _ => Role::Ignored,
    }
}

// By rule A7, and the element by its record's kind; behind the properties stand the mains, then the runs.
pub fn role_of(k: u32, key: usize) -> Role
    ensures { result ≡ role_of k key }
{
    match k {
        kind::REPORT => report_role(key),
        kind::SUITE => suite_role(key),
        kind::CASE => case_role(key),
        _ => if k <= kind::CASE_PROPERTY {
            property_role(key)
        } else {
            status_role(kind::FLAKY_FAILURE <= k, key)
        },
    }
}
