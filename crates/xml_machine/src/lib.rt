// The machine of XML documents byte by byte, and its run with records: definitions, and what is true of them.
#![tactic(auto)]

pub use names::{the_area, the_refusal};
