// The words and bytes of a written table: definitions, and what is true of them.
#![tactic(auto)]

pub use write_spelled::{the_area, the_table};
