// The tree of a report (report.rs of the crate), laid out in two areas.
#![tactic(auto)]

pub use schema::{
    the_area, the_fixed, the_names, the_refusal, the_text_filter, the_timestamp, the_utf8,
    the_uuids,
};
pub use tree_status as the_tree_status;
pub use tree_status::the_tree_record;
