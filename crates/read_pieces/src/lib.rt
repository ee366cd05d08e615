// Pieces of text gathered.
#![tactic(auto)]

ghost use Rattle.std.specs.Prelude.{◌≡◌, ◌+◌, ◌≤◌, length};
ghost use Rattle.text_pieces.specs.of_text.Kept.{kept_answer};
ghost use Rattle.read_scratch.specs.of_read_state.inside.Coded.{level_of, mode_of};
ghost use Rattle.read_scratch.specs.of_table.Event.{piece_kind, piece_bytes};
ghost use Rattle.read_scratch.specs.inside.Places.{piece_from};
ghost use Rattle.read_pieces.specs.inside.Promises.{GathersOver, Gathers};
ghost use Rattle.read_pieces.specs.inside.Pieces.{piece_answer, piece_laid, described_by, lengthened_by, joined_by, is_full, kept_length, told_by};
ghost use Rattle.fronting.specs.of_refusal.declared.Cause.TheVariants as cause;
ghost use Rattle.read_scratch.specs.of_read_state.Control.{gathers};

use fronting::move_front;
pub use fronting::the_area;
use fronting::the_refusal::Cause;
pub use read_scratch as the_read_scratch;
use read_scratch::the_read_content::the_read_fault::Fault;
use read_scratch::the_read_content::{Content, refused};
use read_scratch::the_read_state::{Control, Level, Mode};
use read_scratch::the_table::kind;
pub use read_scratch::{the_read_children, the_read_rules, the_read_state, the_table};
use read_scratch::{fronted, may_move, piece_from};
use text_pieces::the_text::kept::Unkept;
pub use text_pieces::{the_names, the_text};
use text_pieces::{gather_cdata, gather_indent, gather_reference, gather_text};

// Where pieces of text are gathered (rule R20).
pub fn is_gathering(control: Control) -> bool
    ensures { result ≡ gathers (mode_of control) }
{
    match control.mode {
        Mode::Text => true,
        Mode::List => false,
        Mode::At => matches!(control.level, Level::Status),
    }
}

// A piece of text by its event's kind (rule X9), into a part of scratch.
pub fn gather_piece(kind: u32, bytes: &[u8], out: &mut [u8]) -> Result<usize, Unkept>
    ensures result_value { kept_answer cause.ScratchFull result ≡ piece_answer (piece_kind kind) (length out.old) (piece_bytes kind bytes.now) }
    ensures out_after { out.new ≡ piece_laid (piece_kind kind) out.old (piece_bytes kind bytes.now) }
{
    match kind {
        kind::TEXT => gather_text(out, bytes),
        kind::CDATA => gather_cdata(out, bytes),
        kind::REF => gather_reference(out, bytes),
        kind::INDENT => gather_indent(out),
        _ => Ok(0),
    }
}

// The description with n bytes more: in scratch, too, unless a child's text was put over it.
fn described(content: Content, n: usize) -> Content
    requires { content.description + n ≤ 9223372036854775807 }
    ensures { result ≡ described_by n content }
{
    let end = content.description + n;
    let child = if content.child == content.description {
        end
    } else {
        content.child
    };
    Content {
        description: end,
        child,
        ..content
    }
}

// The text of a child with n bytes more.
fn lengthened(content: Content, n: usize) -> Content
    requires { content.gathered + n ≤ 9223372036854775807 }
    ensures { result ≡ lengthened_by n content }
{
    Content {
        gathered: content.gathered + n,
        ..content
    }
}

fn joined(mode: Mode, content: Content, n: usize) -> Content
    requires { piece_from mode content + n ≤ 9223372036854775807 }
    ensures { result ≡ joined_by mode n content }
{
    match mode {
        Mode::At => described(content, n),
        Mode::Text => lengthened(content, n),
        Mode::List => content,
    }
}

fn is_full(piece: Result<usize, Unkept>) -> bool
    ensures { result ≡ is_full piece }
{
    matches!(piece, Err(Unkept::Full))
}

// What a piece comes to; 21 is told here, at the Ref (rule F12).
fn told(mode: Mode, content: Content, piece: Result<usize, Unkept>) -> Result<Content, Fault>
    requires { piece_from mode content + kept_length piece ≤ 9223372036854775807 }
    ensures { result ≡ told_by mode content piece }
{
    match piece {
        Ok(n) => Ok(joined(mode, content, n)),
        Err(Unkept::Full) => refused(Cause::ScratchFull),
        Err(Unkept::NotUtf8) => refused(Cause::NotUtf8),
        Err(Unkept::BadReference) => refused(Cause::BadReference),
        Err(Unkept::UnknownName) => refused(Cause::UnknownEntity),
    }
}

// A piece of a child's text that has no room behind the open description: the text goes over that, to scratch's front.
fn gather_over(
    kind: u32,
    bytes: &[u8],
    content: Content,
    scratch: &mut [u8],
) -> Result<Content, Fault>
    requires { content.child + content.gathered ≤ length scratch.old }
    ensures { GathersOver kind bytes.now content scratch.old scratch.new result }
{
    let n = content.gathered;
    move_front(scratch, content.child, n);
    let piece = gather_piece(kind, bytes, &mut scratch[n..]);
    told(Mode::Text, fronted(content), piece)
}

// A piece goes behind the text that it belongs to (rule M6).
pub fn gather(
    mode: Mode,
    kind: u32,
    bytes: &[u8],
    content: Content,
    scratch: &mut [u8],
) -> Result<Content, Fault>
    requires description_in_bounds { content.description ≤ length scratch.old }
    requires gathered_in_bounds { content.child + content.gathered ≤ length scratch.old }
    ensures { Gathers mode kind bytes.now content scratch.old scratch.new result }
{
    let from = piece_from(mode, content);
    let piece = gather_piece(kind, bytes, &mut scratch[from..]);
    if is_full(piece) & may_move(mode, content) {
        return gather_over(kind, bytes, content, scratch);
    }
    told(mode, content, piece)
}
