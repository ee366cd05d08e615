// Two trees as one: what the merged report is, what merging answers, and what it leaves in the two areas: definitions.
#![tactic(auto)]

pub use starts as the_starts;
pub use starts::{
    the_instant, the_list_sums, the_list_values, the_span, the_tree_layout, the_tree_stamp,
};
pub use tree_counts as the_tree_counts;
