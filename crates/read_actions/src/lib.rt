// What each action does.
#![tactic(auto)]

ghost use Rattle.std.specs.Prelude.{◌≡◌, true, ◌*◌, ◌≤◌, length};
ghost use Rattle.read_texts.specs.of_read_state.inside.Coded.{level_of, mode_of};
ghost use Rattle.read_texts.specs.of_read_place.inside.Coded.{marks_of};
ghost use Rattle.read_texts.specs.of_read_element.inside.Refines.{tagged, areas};
ghost use Rattle.read_texts.specs.of_read_content.inside.Holds.{apt, status_end};
ghost use Rattle.read_actions.specs.inside.Promises.{Closes, ReadyIn, PerformsAct};

use read_opening::the_read_lists::open_list;
use read_opening::{open_element, read_property};
use read_texts::the_read_attribute::Range;
use read_texts::the_read_content::{Content, refused};
use read_texts::the_read_fault::Fault;
use read_texts::the_read_place::Marks;
use read_texts::the_read_state::{Act, Control, Level};
use read_texts::the_refusal::Cause;
use read_texts::the_tree_status::{Tally, is_ruled};
pub use read_texts::{
    the_names, the_read_attribute, the_read_content, the_read_fault, the_read_place,
    the_read_rules, the_read_state, the_refusal, the_table, the_tree_status,
};
use read_texts::{close_status, close_text};

// 20 is told at the case's End (rules S5 and F12).
fn close(
    level: Level,
    tally: Tally,
    marks: Marks,
    content: Content,
    records: &mut [u32],
    text: &mut [u8],
    scratch: &[u8],
) -> Result<Content, Fault>
    requires text_len_bound { length text.old ≤ 16777216 }
    requires fill_in_bounds { content.fill ≤ length text.old }
    requires description_in_bounds { content.description ≤ length scratch.now }
    requires marks_in_bounds { status_end (level_of level) (marks_of marks) * 32 ≤ length records.old }
    ensures { Closes (level_of level) tally (marks_of marks) content
        (areas records.old text.old) (areas records.new text.new) scratch.now result }
{
    match level {
        Level::Top | Level::Suite => Ok(content),
        Level::Case => {
            if is_ruled(tally) {
                Ok(content)
            } else {
                refused(Cause::StatusRule)
            }
        }
        Level::Status => close_status(marks.status_at, content, records, text, scratch),
    }
}

// What an action does; `range` is that of the tag's attributes.
pub fn perform(
    act: Act,
    range: Range,
    control: Control,
    marks: Marks,
    content: Content,
    attributes: &[u32],
    source: &[u8],
    records: &mut [u32],
    text: &mut [u8],
    scratch: &[u8],
) -> Result<Content, Fault>
    requires control_value { apt act (mode_of control) ≡ true }
    requires ready_in { ReadyIn (mode_of control) (marks_of marks) range content (tagged attributes.now source.now)
        (areas records.old text.old) scratch.now }
    ensures { PerformsAct act range control (marks_of marks) content (tagged attributes.now source.now)
        (areas records.old text.old) (areas records.new text.new) scratch.now result }
{
    let level = control.level;
    match act {
        Act::Open(kind, _) => open_element(kind, range, content, attributes, source, records, text),
        Act::Close => close(level, control.tally, marks, content, records, text, scratch),
        Act::CloseText(output) => close_text(level, output, marks, content, records, text, scratch),
        Act::OpenList(_) => Ok(open_list(level, content, records)),
        Act::ReadProperty(_) => read_property(
            level, range, content, attributes, source, records, text,
        ),
        Act::Missing => refused(Cause::MissingReport),
        Act::Broken(cause) => refused(cause),
        Act::Pass | Act::Skip | Act::OpenText(_) | Act::CloseList | Act::Stop => Ok(content),
    }
}
