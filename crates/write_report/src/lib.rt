// The events that a report is written as: definitions.
#![tactic(auto)]

pub use table as the_table;
pub use time_text::the_area;
pub use tree_report::the_tree_record;
pub use write_escape::the_names;
