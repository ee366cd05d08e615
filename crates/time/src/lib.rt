// Times as attribute values.
#![tactic(auto)]

pub use fraction::{the_area, the_digits, the_refusal};

pub mod read;
