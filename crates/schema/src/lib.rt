// What stands where in a record: one row for each field of an element. The laws hold for every table that is fine.
#![tactic(auto)]

pub use text_filter as the_text_filter;
pub use text_filter::the_utf8;
pub use timestamp as the_timestamp;
pub use timestamp::{the_area, the_names, the_refusal};
pub use tree_record as the_tree_record;
pub use uuids as the_uuids;
pub use uuids::the_fixed;
