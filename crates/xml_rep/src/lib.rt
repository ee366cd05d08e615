// How the tokenizer's registers stand for the definition's state: definitions, and what is true of them.
#![tactic(auto)]

pub use xml_state::the_area;
