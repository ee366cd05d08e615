// What is put for the records of a tree, one behind the other: definitions, and that it is what the tree's report is written as.
#![tactic(auto)]

pub use write_report::{the_area, the_names, the_table, the_tree_record};
