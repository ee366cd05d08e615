// The form of what is written, a table or XML with what stands before, and the level: what an entry needs of them and leaves behind.
#![tactic(auto)]

ghost use Rattle.std.specs.Prelude.{◌≡◌, cond, ◌&&◌, ◌-◌, ◌<◌, eqb, leb};
ghost use Rattle.write_table.specs.of_area.Limits.{most_bytes};
ghost use Rattle.write_table.specs.of_table.Kinds as event;
ghost use Rattle.write_table.specs.inside.Forms as forms;

use write_table::the_area::limit;
pub use write_table::the_table;
use write_table::the_table::kind;

pub mod form;

// How many bytes of `/>` the end of the tag before leaves out.
pub fn left_out(form: u32) -> u32
    ensures { result ≡ cond (eqb form forms.in_empty) 0 (cond (eqb form forms.in_tag) 1 2) }
{
    if form == form::IN_EMPTY {
        return 0;
    }
    if form == form::IN_TAG { 1 } else { 2 }
}

pub fn one_less(level: u32) -> u32
    ensures { result ≡ level - 1 }
{
    level.saturating_sub(1)
}

pub fn is_text(kind: u32) -> bool
    ensures { result ≡ forms.is_text kind }
{
    (kind == kind::TEXT) | ((kind == kind::CDATA) | (kind == kind::REF))
}

// No level comes near the limit, since each element has bytes.
pub fn is_too_deep(level: u32, kind: u32) -> bool
    ensures { result ≡ (eqb kind event.start && leb most_bytes level) }
{
    (kind == kind::START) & (limit::BYTES <= level as usize)
}

pub fn form_behind(form: u32, kind: u32) -> u32
    ensures { result ≡ forms.form_behind form kind }
{
    if (kind == kind::START) | (kind == kind::END) {
        return form::IN_TAG;
    }
    if kind == kind::EMPTY {
        return form::IN_EMPTY;
    }
    if kind == kind::OTHER {
        return form::BEHIND_TAG;
    }
    if is_text(kind) | (kind == kind::INDENT) {
        form::FREE
    } else {
        form
    }
}

pub fn level_behind(level: u32, kind: u32) -> u32
    requires { kind ≡ 0 → level < 16777216 }
    ensures { result ≡ forms.level_behind level kind }
{
    if kind == kind::START {
        return level + 1;
    }
    if kind == kind::END {
        one_less(level)
    } else {
        level
    }
}
