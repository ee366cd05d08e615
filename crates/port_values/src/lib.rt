// Values for other languages: structs that C has too, and the codes of variants.
#![tactic(auto)]

pub use build_draft as the_build_draft;
pub use port_refusal as the_port_refusal;

pub mod codes;

ghost use Rattle.std.specs.Prelude.{◌≡◌, length};
ghost use Rattle.build_draft.specs.of_area.Area.{zeros};
ghost use Rattle.port_values.specs.Values.{port_counted, counted_port, port_built, built_port, plain_moment, port_moment, plain_uuid};
ghost use Rattle.port_values.specs.Codes.{no_code_of};

use build_draft::the_timestamp::Moment;
use build_draft::the_tree_counts::{Counted, Counts};
use build_draft::the_uuids::Words;
use build_draft::{Builder, Built, settle};
use port_refusal::the_refusal::{Cause, Verdict, refuse_late};
use port_refusal::{KRefusal, from_refusal};

#[repr(C)]
#[derive(Clone, Copy)]
pub struct KCounted {
    pub counts: Counts,
    pub refusal: KRefusal,
}

#[repr(C)]
#[derive(Clone, Copy)]
pub struct KBuilt {
    pub builder: Builder,
    pub refusal: KRefusal,
}

// `offset` is minutes east of UTC, and 1439.
#[repr(C)]
#[derive(Clone, Copy)]
pub struct KMoment {
    pub year: u16,
    pub month: u8,
    pub day: u8,
    pub hour: u8,
    pub minute: u8,
    pub second: u8,
    pub nanos: u32,
    pub offset: u16,
}

// The 16 octets, the most significant first.
#[repr(C)]
#[derive(Clone, Copy)]
pub struct KUuid {
    pub a: u32,
    pub b: u32,
    pub c: u32,
    pub d: u32,
}

pub fn counted(c: Counted) -> KCounted
    ensures { result ≡ port_counted c }
{
    let verdict = c.verdict;
    let counts = c.counts;
    let refusal = c.refusal;
    KCounted {
        counts,
        refusal: from_refusal(verdict, refusal),
    }
}

// The counts as they were, where a code is none.
pub fn not_counted(counts: Counts) -> KCounted
    ensures { result ≡ counted_port counts no_code_of }
{
    KCounted {
        counts,
        refusal: from_refusal(Verdict::Refused, refuse_late(Cause::NotLayout)),
    }
}

pub fn built(b: Built) -> KBuilt
    ensures { result ≡ port_built b }
{
    let verdict = b.verdict;
    let builder = b.builder;
    let refusal = b.refusal;
    KBuilt {
        builder,
        refusal: from_refusal(verdict, refusal),
    }
}

// Both areas become zero where a code is none, as at any refusal.
pub fn not_built(records: &mut [u32], text: &mut [u8]) -> KBuilt
    ensures value { result ≡ built_port no_code_of }
    ensures records_after { records.new ≡ zeros (length records.old) }
    ensures text_after { text.new ≡ zeros (length text.old) }
{
    let answer = settle(Err(Cause::NotLayout), records, text);
    built(answer)
}

pub fn plain_moment(k: KMoment) -> Moment
    ensures { result ≡ plain_moment k }
{
    Moment {
        year: k.year,
        month: k.month,
        day: k.day,
        hour: k.hour,
        minute: k.minute,
        second: k.second,
        nanos: k.nanos,
        offset: k.offset,
    }
}

pub fn port_moment(m: Moment) -> KMoment
    ensures { result ≡ port_moment m }
{
    KMoment {
        year: m.year,
        month: m.month,
        day: m.day,
        hour: m.hour,
        minute: m.minute,
        second: m.second,
        nanos: m.nanos,
        offset: m.offset,
    }
}

pub fn plain_uuid(k: KUuid) -> Words
    ensures { result ≡ plain_uuid k }
{
    Words {
        a: k.a,
        b: k.b,
        c: k.c,
        d: k.d,
    }
}
