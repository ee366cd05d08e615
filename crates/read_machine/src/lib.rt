// Reading: an event table in, a report's tree out (deserialize.rs of the crate): the definitions, and what is true of them.
#![tactic(auto)]

pub use read_content as the_read_content;
pub use read_path as the_read_path;
pub use table_events as the_table_events;
