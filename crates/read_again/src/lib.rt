// An open status element's events gone over again: its description, and nothing else, into scratch.
#![tactic(auto)]

ghost use Rattle.std.specs.Prelude.{◌≡◌, true, List, ◌++◌, ℕ, ◌+◌, ◌-◌, ◌≤◌, ◌<◌, length, take, drop};
ghost use Rattle.read_pieces.specs.of_area.Area.{stored_answer, placing, laid};
ghost use Rattle.read_pieces.specs.of_table.Table.{count_of};
ghost use Rattle.read_pieces.specs.of_names.Tags.{tag_of};
ghost use Rattle.read_pieces.specs.of_table.Event.{tag_kind, piece_kind, piece_bytes};
ghost use Rattle.read_pieces.specs.of_text.Kept.{kept_answer};
ghost use Rattle.read_pieces.specs.of_read_state.Control as plan;
ghost use Rattle.read_pieces.specs.of_read_state.inside.Coded.{output_of, mode_at, act_in};
ghost use Rattle.read_pieces.specs.of_read_rules.Rules.{plan_at};
ghost use Rattle.read_again.specs.Told.{added, told};
ghost use Rattle.read_again.specs.inside.Since.{found, Restores};
ghost use Rattle.read_again.specs.inside.Turns.{put_by, Leads, LedBy, turn_behind, Known, Turned, rest};
ghost use Rattle.read_pieces.specs.of_refusal.declared.Cause.TheVariants as cause;

use read_machine::the_read_content::Content;
use read_machine::the_table_events::the_refusal::Cause;
use read_machine::the_table_events::{bytes_at, is_piece, kind_at, skip_from};
pub use read_machine::{the_read_path, the_table_events};
pub use read_pieces as the_read_pieces;
use read_pieces::gather_piece;
use read_pieces::the_names::tag_of;
use read_pieces::the_read_children::step_status;
use read_pieces::the_read_rules::{step_list, step_text};
pub use read_pieces::the_read_scratch;
use read_pieces::the_read_state::{Act, Mode, Output};
use read_pieces::the_table::kind;
use read_pieces::the_text::kept::Unkept;

// Where it stands: in the element or in a child's text, at an event, with so many bytes put.
#[derive(Clone, Copy)]
pub struct Again {
    pub mode: Mode,
    pub output: Output,
    pub event: usize,
    pub fill: usize,
}

// Where a tag leads.
#[derive(Clone, Copy)]
pub enum Led {
    To(Mode, Output),
    Skip,
    End,
}

// What is put of a piece: one that is refused adds nothing.
fn put_of(kept: Result<usize, Unkept>) -> Option<usize>
    ensures { result ≡ put_by kept }
{
    match kept {
        Ok(n) => Some(n),
        Err(Unkept::Full) => None,
        Err(_) => Some(0),
    }
}

// A piece of the description, from k on; one of a child is passed over.
fn put_piece(mode: Mode, kind: u32, bytes: &[u8], out: &mut [u8], k: usize) -> Option<usize>
    requires { k ≤ length out.old }
    ensures result_value { (o : plan.Output) → stored_answer cause.ScratchFull result
        ≡ placing cause.ScratchFull (length out.old - k) (added (mode_at mode plan.status o) (piece_kind kind) (piece_bytes kind bytes.now)) }
    ensures out_after { (o : plan.Output) → out.new
        ≡ take k out.old ++ laid (drop k out.old) (added (mode_at mode plan.status o) (piece_kind kind) (piece_bytes kind bytes.now)) }
{
    match mode {
        Mode::At => put_of(gather_piece(kind, bytes, &mut out[k..])),
        Mode::Text | Mode::List => Some(0),
    }
}

fn led_by(act: Act, mode: Mode, output: Output) -> Led
    ensures { (name : List ℕ) → LedBy mode output act name result }
{
    match act {
        Act::Pass => Led::To(mode, output),
        Act::Skip => Led::Skip,
        Act::OpenText(o) => Led::To(Mode::Text, o),
        Act::CloseText(_) | Act::CloseList => Led::To(Mode::At, output),
        Act::Open(_, _)
        | Act::Close
        | Act::OpenList(_)
        | Act::ReadProperty(_)
        | Act::Stop
        | Act::Missing
        | Act::Broken(_) => Led::End,
    }
}

// What is done at a tag inside a status element (rules S2 to S4): as `plan_tag` says of that level alone.
fn plan_status(mode: Mode, output: Output, kind: u32, tag: usize) -> Act
    ensures { (name : List ℕ) → tag_of name ≡ tag
        → act_in (mode_at mode plan.status (output_of output)) name result ≡ plan_at (mode_at mode plan.status (output_of output)) true (tag_kind kind) name }
{
    match mode {
        Mode::At => step_status(kind, tag),
        Mode::Text => step_text(output, kind, tag),
        Mode::List => step_list(kind, tag),
    }
}

fn lead(mode: Mode, output: Output, kind: u32, name: &[u8]) -> Led
    ensures { Leads (plan_at (mode_at mode plan.status (output_of output)) true (tag_kind kind) name.now) name.now result }
{
    let act = plan_status(mode, output, kind, tag_of(name));
    led_by(act, mode, output)
}

// Behind a skip; a skip that is refused ends it.
fn turn_behind(skipped: Result<usize, (Cause, usize)>, output: Output, fill: usize) -> Option<Again>
    ensures { result ≡ turn_behind skipped output fill }
{
    let event = skipped.ok()?;
    Some(Again {
        mode: Mode::At,
        output,
        event,
        fill,
    })
}

// One event, with what is skipped behind it: where it stands then, if it isn't at the end; None where the piece has no room.
fn go_over(at: Again, events: &[u32], source: &[u8], out: &mut [u8]) -> Option<Option<Again>>
    requires known { Known events.now }
    requires fill_in_bounds { at.fill ≤ length out.old }
    ensures { Turned events.now source.now out.old out.new at result }
{
    let kind = kind_at(events, at.event);
    if kind == kind::EOF {
        return Some(None);
    }
    if kind == kind::FAULT {
        return Some(None);
    }
    let bytes = bytes_at(events, source, at.event);
    let next = at.event + 1;
    if is_piece(kind) {
        let n = put_piece(at.mode, kind, bytes, out, at.fill)?;
        return Some(Some(Again {
            event: next,
            fill: at.fill + n,
            ..at
        }));
    }
    let led = lead(at.mode, at.output, kind, bytes);
    match led {
        Led::To(mode, output) => Some(Some(Again {
            mode,
            output,
            event: next,
            ..at
        })),
        Led::Skip => Some(turn_behind(skip_from(events, source, at.event), at.output, at.fill)),
        Led::End => Some(None),
    }
}

// What the events of an open status element from number `from` on add to its description, at the front of `out`.
pub fn gather_again(events: &[u32], source: &[u8], from: usize, out: &mut [u8]) -> Option<usize>
    requires known { Known events.now }
    requires from_bound { from ≤ count_of events.now }
    ensures by_index { (attributes : List ℕ) → stored_answer cause.ScratchFull result
        ≡ placing cause.ScratchFull (length out.old) (told (plan.at plan.status) (rest events.now attributes source.now from)) }
    ensures by_index_2 { (attributes : List ℕ) → out.new
        ≡ laid out.old (told (plan.at plan.status) (rest events.now attributes source.now from)) }
{
    let mut at = Again {
        mode: Mode::At,
        output: Output::Out,
        event: from,
        fill: 0,
    };
    // while: each step goes over an event and what is skipped behind it.
    while let Some(a) = go_over(at, events, source, out)? {
        at = a;
    }
    Some(at.fill)
}

// The content with its description, which a child's text was put over, at scratch's front again.
pub fn restored(
    content: Content,
    events: &[u32],
    source: &[u8],
    first: usize,
    scratch: &mut [u8],
) -> Content
    requires known { Known events.now }
    requires first_bound { first ≤ count_of events.now }
    ensures value { result ≡ found content }
    ensures restores { Restores events.now source.now first content scratch.old scratch.new }
{
    let _put = gather_again(events, source, first, scratch);
    Content {
        child: content.description,
        ..content
    }
}
