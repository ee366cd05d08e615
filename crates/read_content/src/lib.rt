// What actions do to records and texts.
#![tactic(auto)]

ghost use Rattle.std.specs.Prelude.{◌≡◌, Err};
ghost use Rattle.read_place.specs.of_read_state.inside.Coded.{level_of};
ghost use Rattle.read_place.specs.inside.Coded.{marks_of};
ghost use Rattle.read_content.specs.Content.{property_kind, takes};
ghost use Rattle.read_content.specs.inside.Holds.{fault_of, no_content};

pub use read_attributes as the_read_attributes;
use read_attributes::the_read_attribute::Range;
use read_attributes::the_read_fault::Fault;
pub use read_attributes::{the_read_attribute, the_read_fault, the_text_filter, the_tree_put};
pub use read_place as the_read_place;
use read_place::Marks;
pub use read_place::the_read_state;
use read_place::the_read_state::Level;
pub use read_rules as the_read_rules;
use read_rules::the_tree_record::kind;
pub use read_rules::{the_names, the_read_children, the_table, the_tree_record, the_tree_status};
pub use trim as the_trim;
use trim::the_refusal::{Cause, NOWHERE};
pub use trim::{the_area, the_refusal};

// Records from number `first` on.
#[derive(Clone, Copy)]
pub struct List {
    pub first: usize,
    pub count: usize,
}

// How many records and bytes of text are there, how many bytes the open description and the text of a child have, and where the
// child's begins in scratch: behind the description, or at the front, over it (rule M6); the record of the live report, the last
// properties list of the open suite and case, and a range of attributes without a repeated key.
#[derive(Clone, Copy)]
pub struct Content {
    pub used: usize,
    pub fill: usize,
    pub description: usize,
    pub gathered: usize,
    pub child: usize,
    pub report_at: usize,
    pub suite_list: List,
    pub case_list: List,
    pub free: Range,
}

pub fn no_content() -> Content
    ensures { result ≡ no_content }
{
    let none = List { first: 0, count: 0 };
    Content {
        used: 0,
        fill: 0,
        description: 0,
        gathered: 0,
        child: 0,
        report_at: 0,
        suite_list: none,
        case_list: none,
        free: Range { first: 0, end: 0 },
    }
}

pub fn refused(cause: Cause) -> Result<Content, Fault>
    ensures { result ≡ Err (fault_of cause) }
{
    Err(Fault {
        cause,
        key: 0,
        attribute: NOWHERE,
    })
}

pub fn property_kind(level: Level) -> u32
    ensures { result ≡ property_kind (level_of level) }
{
    match level {
        Level::Top | Level::Suite => kind::SUITE_PROPERTY,
        Level::Case | Level::Status => kind::CASE_PROPERTY,
    }
}

// The record of a main takes no stack trace and no outputs (rule S12).
pub fn is_taken(level: Level, marks: Marks) -> bool
    ensures { result ≡ takes (level_of level) (marks_of marks) }
{
    match level {
        Level::Top => false,
        Level::Suite | Level::Case => true,
        Level::Status => kind::FLAKY_FAILURE <= marks.status_kind,
    }
}
