// Where the texts that are being gathered lie in scratch (rule M6).
#![tactic(auto)]

ghost use Rattle.std.specs.Prelude.{◌≡◌, cond, not, ◌+◌, ◌≤◌, eqb};
ghost use Rattle.read_scratch.specs.inside.Places.{piece_from, may_move, fronted_in};

pub use read_content as the_read_content;
use read_content::Content;
use read_content::the_read_state::Mode;
pub use read_content::{the_read_children, the_read_rules, the_read_state, the_table};

// A piece goes behind the text that it belongs to.
pub fn piece_from(mode: Mode, content: Content) -> usize
    requires { content.child + content.gathered ≤ 9223372036854775807 }
    ensures { result ≡ piece_from mode content }
{
    match mode {
        Mode::At => content.description,
        Mode::Text => content.child + content.gathered,
        Mode::List => 0,
    }
}

// Whether the text that a piece belongs to is a child's behind a description, over which it may go.
pub fn may_move(mode: Mode, content: Content) -> bool
    ensures { result ≡ may_move mode content }
{
    matches!(mode, Mode::Text) & (1 <= content.child)
}

// The text of a child stands at the front from here on.
pub fn fronted(content: Content) -> Content
    ensures { result ≡ fronted_in content }
{
    Content {
        child: 0,
        ..content
    }
}

// Whether the text of a child was put over the open description.
pub fn is_lost(content: Content) -> bool
    ensures { result ≡ not (eqb content.child content.description) }
{
    content.child != content.description
}

// The event of a description's first piece: the one at hand as long as nothing is described.
pub fn first_of(first: usize, content: Content, event: usize) -> usize
    ensures { result ≡ cond (eqb content.description 0) event first }
{
    if content.description == 0 {
        event
    } else {
        first
    }
}
