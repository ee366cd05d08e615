// Refusals as they are told: to other languages by the numbers of port_refusal, to readers by a line. Every cause; every kind of a path
// element, with the numbers beside it; every name of an attribute; and numbers that are none.
#![tactic(auto)]

ghost use Rattle.std.specs.Prelude.{◌≤◌};

use explain::explain;
use list_input::front;
use port_refusal::the_refusal::{Cause, NOWHERE, Path, PathElement, Refusal, Verdict, refuse_late};
use port_refusal::{from_refusal, to_refusal};
use std::io;

fn say(rt: &impl Print, bytes: &[u8]) -> io::Result<()> {
    rt.write_all(bytes)
}

fn say_number(rt: &impl Print, n: u32) -> io::Result<()> {
    print!(rt; "{n} ")
}

// The line, with a table of one Start whose name is `lab`; `lent` is the length of the area that was too short.
fn tell_line(rt: &impl Print, refusal: Refusal, lent: usize) -> io::Result<()> {
    let mut out = [7u8; 512];
    let events = [0u32, 0, 0, 0, 1];
    let attributes = [0u32, 0, 4, 4, 3];
    let told = explain(refusal, lent, &events, &attributes, b"namelab", &mut out);
    say(rt, front(&out, told.length))
}

// The cause's code and number, and the line of the refusal that comes back from other languages.
fn tell(rt: &impl Print, refusal: Refusal) -> io::Result<()> {
    let k = from_refusal(Verdict::Refused, refusal);
    say_number(rt, k.cause)?;
    say_number(rt, k.number)?;
    tell_line(rt, to_refusal(k), 0)
}

fn tell_cause(rt: &impl Print, cause: Cause) -> io::Result<()> {
    tell(rt, refuse_late(cause))
}

fn tell_value_causes(rt: &impl Print) -> io::Result<()> {
    tell_cause(rt, Cause::XmlFault)?;
    tell_cause(rt, Cause::EofInSkip)?;
    tell_cause(rt, Cause::NotUtf8)?;
    tell_cause(rt, Cause::BadInteger)?;
    tell_cause(rt, Cause::BadTimestamp)?;
    tell_cause(rt, Cause::BadTime)?;
    tell_cause(rt, Cause::BadUuid)
}

fn tell_structure_causes(rt: &impl Print) -> io::Result<()> {
    tell_cause(rt, Cause::MissingAttribute)?;
    tell_cause(rt, Cause::MissingReport)?;
    tell_cause(rt, Cause::EofInElement)?;
    tell_cause(rt, Cause::StatusRule)?;
    tell_cause(rt, Cause::UnknownEntity)?;
    tell_cause(rt, Cause::FaultyAttribute)?;
    tell_cause(rt, Cause::RepeatedKey)?;
    tell_cause(rt, Cause::BadReference)
}

fn tell_area_causes(rt: &impl Print) -> io::Result<()> {
    tell_cause(rt, Cause::BadTable)?;
    tell_cause(rt, Cause::RecordsSpent)?;
    tell_cause(rt, Cause::TextFull)?;
    tell_cause(rt, Cause::ScratchFull)?;
    tell_cause(rt, Cause::NotLayout)?;
    tell_cause(rt, Cause::OutputFull)?;
    tell_cause(rt, Cause::CountLimit)?;
    tell_cause(rt, Cause::TooManyCases)?;
    tell_cause(rt, Cause::NoSuchReport)?;
    tell_cause(rt, Cause::TooManyReports)?;
    tell_cause(rt, Cause::TimeLimit)
}

// An area one short of the limit's size, and one of that size.
fn tell_limit(rt: &impl Print, cause: Cause, limit: usize) -> io::Result<()>
    requires { 1 ≤ limit }
{
    tell_line(rt, refuse_late(cause), limit - 1)?;
    tell_line(rt, refuse_late(cause), limit)
}

fn tell_limits(rt: &impl Print) -> io::Result<()> {
    tell_limit(rt, Cause::RecordsSpent, 2097152)?;
    tell_limit(rt, Cause::TextFull, 16777216)?;
    tell_limit(rt, Cause::ScratchFull, 16777216)?;
    tell_limit(rt, Cause::OutputFull, 16777216)
}

fn element(kind: u32, index: u32, event: u32) -> PathElement {
    PathElement { kind, index, event }
}

// A path of n elements.
fn tell_path(
    rt: &impl Print,
    elements: [PathElement; 6],
    n: usize,
    event: u32,
    attribute: u32,
) -> io::Result<()> {
    let path = Path { elements, len: n };
    tell(
        rt,
        Refusal {
            cause: Cause::XmlFault,
            path,
            event,
            attribute,
        },
    )
}

// Six kinds from k on, each with index 3 and the event of the Start.
fn tell_kinds(rt: &impl Print, k: u32) -> io::Result<()>
    requires { k ≤ 12 }
{
    let a = element(k, 3, 0);
    let b = element(k + 1, 3, 0);
    let c = element(k + 2, 3, 0);
    let d = element(k + 3, 3, 0);
    let e = element(k + 4, 3, 0);
    let f = element(k + 5, 3, 0);
    tell_path(rt, [a, b, c, d, e, f], 6, 12, 31)
}

// Six attributes from code k on.
fn tell_attributes(rt: &impl Print, k: u32) -> io::Result<()>
    requires { k ≤ 12 }
{
    let a = element(16, k, 0);
    let b = element(16, k + 1, 0);
    let c = element(16, k + 2, 0);
    let d = element(16, k + 3, 0);
    let e = element(16, k + 4, 0);
    let f = element(16, k + 5, 0);
    tell_path(rt, [a, b, c, d, e, f], 6, 12, NOWHERE)
}

// A suite and a case without a name: none is concerned, or the table hasn't that event; paths of n elements.
fn tell_unnamed(rt: &impl Print, n: usize, attribute: u32) -> io::Result<()> {
    let a = element(1, NOWHERE, NOWHERE);
    let b = element(2, 0, NOWHERE);
    let c = element(3, 4294967294, 1);
    let d = element(17, 0, 0);
    tell_path(rt, [a, b, c, d, d, d], n, NOWHERE, attribute)
}

fn main(rt: HostRuntime) -> io::Result<()> {
    tell_value_causes(&rt)?;
    tell_structure_causes(&rt)?;
    tell_area_causes(&rt)?;
    tell_kinds(&rt, 0)?;
    tell_kinds(&rt, 6)?;
    tell_kinds(&rt, 12)?;
    tell_attributes(&rt, 0)?;
    tell_attributes(&rt, 6)?;
    tell_attributes(&rt, 12)?;
    tell_unnamed(&rt, 3, NOWHERE)?;
    tell_unnamed(&rt, 1, 31)?;
    tell_limits(&rt)?;
    Ok(())
}
