// Definitions and laws only: events as the bytes of an XML document.
#![tactic(auto)]

pub use names::the_area;
pub use table as the_table;
