// Every move of the tokenizer agrees with the definition: what is true of both.
#![tactic(auto)]

pub use xml_rep::the_area;
