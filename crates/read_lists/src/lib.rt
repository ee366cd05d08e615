// Records marked dead, and the properties lists.
#![tactic(auto)]

ghost use Rattle.std.specs.Prelude.{◌≡◌, ◌≤◌, ◌+◌, ◌-◌, ◌*◌, length};
ghost use Rattle.read_content.specs.Content.{killed};
ghost use Rattle.read_content.specs.of_read_state.inside.Coded.{level_of};
ghost use Rattle.read_content.specs.inside.Holds.{kill_words, list_of, with_list};

pub use read_content as the_read_content;
use read_content::the_read_state::Level;
use read_content::the_tree_record::{field, kind, put_field, word};
pub use read_content::{the_read_attribute, the_read_attributes, the_read_state, the_tree_record};
use read_content::{Content, List};

// The record at the front of the part is marked dead, if it isn't.
#[tactic(auto, using(crate::proofs::Marking::kill_put, crate::proofs::Marking::kill_not))]
fn kill_record(words: &mut [u32])
    ensures { words.new ≡ killed words.old }
{
    let k = field(words, word::KIND);
    if k < kind::DEAD {
        put_field(words, word::KIND, k + kind::DEAD);
    }
}

// The records from number `first` to before number `end` are marked dead (rule M3).
#[tactic(auto, using(crate::proofs::Marking::killing_start, crate::proofs::Marking::killing_more, crate::proofs::Marking::killing_done))]
pub fn kill(records: &mut [u32], first: usize, end: usize)
    requires first_le_end { first ≤ end }
    requires end_in_bounds { end * 32 ≤ length records.old }
    ensures { records.new ≡ kill_words (end - first) first records.old }
{
    for i in first..end {
        let at = i * 32;
        kill_record(&mut records[at..]);
    }
}

pub fn list_of(level: Level, content: Content) -> List
    ensures { result ≡ list_of (level_of level) content }
{
    match level {
        Level::Top | Level::Suite => content.suite_list,
        Level::Case | Level::Status => content.case_list,
    }
}

pub fn with_list(level: Level, content: Content, list: List) -> Content
    ensures { result ≡ with_list (level_of level) content list }
{
    match level {
        Level::Top | Level::Suite => Content {
            suite_list: list,
            ..content
        },
        Level::Case | Level::Status => Content {
            case_list: list,
            ..content
        },
    }
}

// The list before is marked dead (rule R17).
#[tactic(auto, using(crate::proofs::Marking::old_kill, crate::proofs::Marking::old_end))]
pub fn open_list(level: Level, content: Content, records: &mut [u32]) -> Content
    requires { ((list_of (level_of level) content).first + (list_of (level_of level) content).count) * 32 ≤ length records.old }
    ensures value { result ≡ with_list (level_of level) content (record { first = content.used; count = 0 }) }
    ensures records_after { records.new ≡ kill_words (list_of (level_of level) content).count (list_of (level_of level) content).first records.old }
{
    let old = list_of(level, content);
    kill(records, old.first, old.first + old.count);
    let list = List {
        first: content.used,
        count: 0,
    };
    with_list(level, content, list)
}
