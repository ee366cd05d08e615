// An element from its attributes (the attribute loops of deserialize.rs): the definitions, and what is true of them.
#![tactic(auto)]

pub use integer as the_integer;
pub use integer::{the_area, the_names, the_refusal};
pub use read_keys as the_read_keys;
pub use table::the_table_parts;
pub use text as the_text;
pub use text::the_text_filter;
pub use time as the_time;
pub use tree_put as the_tree_put;
pub use tree_put::the_tree_record;
