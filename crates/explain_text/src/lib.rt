// The line that explains a refusal: definitions only.
#![tactic(auto)]

pub use list_text as the_list_text;
pub use list_text::the_time_text;
pub use text as the_text;
pub use text::{the_area, the_reference, the_refusal, the_utf8};
