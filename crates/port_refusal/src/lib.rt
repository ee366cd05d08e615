// A refusal for other languages: numbers only, in a struct that C has too.
#![tactic(auto)]

ghost use Rattle.std.specs.Prelude.{◌≡◌, ◌+◌, ◌≤◌, min};
ghost use Rattle.port_refusal.specs.Port.{code, path_words, not_refused, refused_port, port_refusal};
ghost use Rattle.port_refusal.specs.Back.{cause_at, element_from, plain_path, plain_refusal};

pub use refusal as the_refusal;
use refusal::{Cause, NOWHERE, Path, PathElement, Refusal, Verdict, number_of};

// The number is 0 where nothing is refused, and the cause is then 0 too; else it counts the causes from 1 on. Of the path's words the
// first three times `depth` are kind, index and event of its elements.
#[repr(C)]
#[derive(Clone, Copy)]
pub struct KRefusal {
    pub number: u32,
    pub cause: u32,
    pub depth: u32,
    pub path: [u32; 18],
    pub event: u32,
    pub attribute: u32,
}

fn code_of(cause: Cause) -> u32
    ensures { result ≡ code cause }
{
    match cause {
        Cause::XmlFault => 1,
        Cause::EofInSkip => 2,
        Cause::NotUtf8 => 3,
        Cause::BadInteger => 4,
        Cause::BadTimestamp => 5,
        Cause::BadTime => 6,
        Cause::BadUuid => 7,
        Cause::MissingAttribute => 8,
        Cause::MissingReport => 9,
        Cause::EofInElement => 10,
        Cause::StatusRule => 11,
        Cause::UnknownEntity => 12,
        Cause::FaultyAttribute => 13,
        Cause::RepeatedKey => 14,
        Cause::BadReference => 15,
        Cause::BadTable => 16,
        Cause::RecordsSpent => 17,
        Cause::TextFull => 18,
        Cause::ScratchFull => 19,
        Cause::NotLayout => 20,
        Cause::OutputFull => 21,
        Cause::CountLimit => 22,
        Cause::TooManyCases => 23,
        Cause::NoSuchReport => 24,
        Cause::TooManyReports => 25,
        Cause::TimeLimit => 26,
    }
}

// A path has at most six elements.
fn depth_of(len: usize) -> u32
    ensures { result ≡ min len 6 }
{
    len.min(6) as u32
}

fn words_of(path: Path) -> [u32; 18]
    ensures { result ≡ path_words path.elements }
{
    let elements = path.elements;
    let a = elements[0];
    let b = elements[1];
    let c = elements[2];
    let d = elements[3];
    let e = elements[4];
    let f = elements[5];
    [
        a.kind, a.index, a.event, b.kind, b.index, b.event, c.kind, c.index, c.event, d.kind,
        d.index, d.event, e.kind, e.index, e.event, f.kind, f.index, f.event,
    ]
}

fn accepted() -> KRefusal
    ensures { result ≡ not_refused }
{
    KRefusal {
        number: 0,
        cause: 0,
        depth: 0,
        path: [0; 18],
        event: NOWHERE,
        attribute: NOWHERE,
    }
}

fn refused(refusal: Refusal) -> KRefusal
    ensures { result ≡ refused_port refusal }
{
    let cause = refusal.cause;
    let path = refusal.path;
    let len = path.len;
    let words = words_of(path);
    KRefusal {
        number: number_of(cause),
        cause: code_of(cause),
        depth: depth_of(len),
        path: words,
        event: refusal.event,
        attribute: refusal.attribute,
    }
}

pub fn from_refusal(verdict: Verdict, refusal: Refusal) -> KRefusal
    ensures { result ≡ port_refusal verdict refusal }
{
    match verdict {
        Verdict::Accepted => accepted(),
        Verdict::Refused => refused(refusal),
    }
}

// A code that is none counts as BadTable.
fn cause_at(code: u32) -> Cause
    ensures { result ≡ cause_at code }
{
    let causes = [
        Cause::BadTable,
        Cause::XmlFault,
        Cause::EofInSkip,
        Cause::NotUtf8,
        Cause::BadInteger,
        Cause::BadTimestamp,
        Cause::BadTime,
        Cause::BadUuid,
        Cause::MissingAttribute,
        Cause::MissingReport,
        Cause::EofInElement,
        Cause::StatusRule,
        Cause::UnknownEntity,
        Cause::FaultyAttribute,
        Cause::RepeatedKey,
        Cause::BadReference,
        Cause::BadTable,
        Cause::RecordsSpent,
        Cause::TextFull,
        Cause::ScratchFull,
        Cause::NotLayout,
        Cause::OutputFull,
        Cause::CountLimit,
        Cause::TooManyCases,
        Cause::NoSuchReport,
        Cause::TooManyReports,
        Cause::TimeLimit,
    ];
    let i = code as usize;
    if i < 27 {
        return causes[i];
    }
    Cause::BadTable
}

fn len_of(depth: u32) -> usize
    ensures { result ≡ min depth 6 }
{
    (depth as usize).min(6)
}

// The element whose three words begin at i.
fn element_from(words: [u32; 18], i: usize) -> PathElement
    requires { i ≤ 15 }
    ensures { result ≡ element_from words i (i + 1) (i + 2) }
{
    PathElement {
        kind: words[i],
        index: words[i + 1],
        event: words[i + 2],
    }
}

fn path_of(k: KRefusal) -> Path
    ensures { result ≡ plain_path k }
{
    let words = k.path;
    Path {
        elements: [
            element_from(words, 0),
            element_from(words, 3),
            element_from(words, 6),
            element_from(words, 9),
            element_from(words, 12),
            element_from(words, 15),
        ],
        len: len_of(k.depth),
    }
}

// The refusal that a caller hands back, which may be made up.
pub fn to_refusal(k: KRefusal) -> Refusal
    ensures { result ≡ plain_refusal k }
{
    Refusal {
        cause: cause_at(k.cause),
        path: path_of(k),
        event: k.event,
        attribute: k.attribute,
    }
}
