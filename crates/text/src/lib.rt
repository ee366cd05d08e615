// Attribute values on their way into a lent area.
#![tactic(auto)]

pub use reference as the_reference;
pub use reference::the_names;
pub use text_filter as the_text_filter;
pub use utf8_chars as the_utf8_chars;
pub use utf8_chars::{the_area, the_refusal, the_utf8};

pub mod decode;
pub mod kept;
pub mod value;
