// Events of a table by their number, and the skip of an element.
#![tactic(auto)]

ghost use Rattle.std.specs.Prelude.{◌≡◌, ℕ, ◌+◌, ◌-◌, ◌*◌, ◌<◌, cond, List, [], leb, drop};
ghost use Rattle.table.specs.Table.{count_of};
ghost use Rattle.table.specs.Kinds as kind;
ghost use Rattle.table.specs.Event.{kind_at, bytes_at, resolve_from};
ghost use Rattle.table_events.specs.inside.Pieces.{is_piece};
ghost use Rattle.table_events.specs.inside.Ranges.{first_at, end_at};
ghost use Rattle.table_events.specs.Skip.{depth_after, skip_of, skip_answer};

pub use names as the_names;
use names::same;
use names::the_area::wide;
use names::the_refusal::Cause;
pub use names::{the_area, the_refusal};
pub use table as the_table;
use table::kind;
pub use table::the_table_parts;
use table::the_table_parts::{bytes_of, word_of};

// The words from event i on, none behind the table.
fn words_at(events: &[u32], i: usize) -> &[u32]
    ensures { result.now ≡ cond (leb (count_of events.now) i) [] (drop (i * 5) events.now) }
{
    let n = events.len();
    if n / 5 <= i {
        return &events[n..];
    }
    let at = i * 5;
    &events[at..]
}

// Behind the last event stands an Eof (rule T5).
pub fn kind_at(events: &[u32], i: usize) -> u32
    ensures { result ≡ cond (leb (count_of events.now) i) kind.eof (kind_at events.now i) }
{
    if events.len() / 5 <= i {
        return kind::EOF;
    }
    word_of(words_at(events, i), 0)
}

// The kinds of pieces of text: Text, CData, Ref, Other, Indent (rule T3).
pub fn is_piece(kind: u32) -> bool
    ensures { result ≡ is_piece kind }
{
    ((kind::TEXT <= kind) & (kind <= kind::OTHER)) | (kind == kind::INDENT)
}

pub fn bytes_at<'a>(events: &[u32], source: &'a [u8], i: usize) -> &'a [u8]
    ensures { result.now ≡ cond (leb (count_of events.now) i) [] (bytes_at events.now source.now i) }
{
    let words = words_at(events, i);
    bytes_of(source, wide(word_of(words, 1)), wide(word_of(words, 2)))
}

// The attributes of event i: from this number on ..
pub fn first_at(events: &[u32], i: usize) -> usize
    ensures { result ≡ first_at events.now i }
{
    let words = words_at(events, i);
    if word_of(words, 4) == 0 {
        return 0;
    }
    wide(word_of(words, 3))
}

// .. to before this one.
pub fn end_at(events: &[u32], i: usize) -> usize
    ensures { result ≡ end_at events.now i }
{
    let words = words_at(events, i);
    let count = word_of(words, 4);
    if count == 0 {
        return 0;
    }
    wide(word_of(words, 3)) + wide(count)
}

// The depth behind an event of that kind; `own` says that it has the skipped name.
fn depth_after(kind: u32, own: bool, depth: usize) -> usize
    requires { depth < 18446744073709551615 }
    ensures { result ≡ depth_after kind own depth }
{
    if own & (kind == kind::START) {
        return depth + 1;
    }
    if own & (kind == kind::END) & (0 < depth) {
        return depth - 1;
    }
    depth
}

// Skips the element that event `start` begins: the number of the next event, or why and at which event that is refused (rules R11
// and R19).
pub fn skip_from(events: &[u32], source: &[u8], start: usize) -> Result<usize, (Cause, usize)>
    requires { start < count_of events.now }
    ensures { (attributes : List ℕ) → skip_answer result ≡ skip_of (bytes_at events.now source.now start) 0 (start + 1)
        (resolve_from events.now attributes source.now (count_of events.now - (start + 1)) (start + 1)) }
{
    let name = bytes_at(events, source, start);
    let mut depth = 0;
    for i in start + 1..events.len() / 5 {
        let kind = kind_at(events, i);
        if kind == kind::EOF {
            return Err((Cause::EofInSkip, i));
        }
        if kind == kind::FAULT {
            return Err((Cause::XmlFault, i));
        }
        let own = same(bytes_at(events, source, i), name);
        if own & (kind == kind::END) & (depth == 0) {
            return Ok(i + 1);
        }
        depth = depth_after(kind, own, depth);
    }
    // behind the last event
    Err((Cause::EofInSkip, events.len() / 5))
}
