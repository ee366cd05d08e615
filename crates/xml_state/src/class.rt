// XML 1.0, productions 2, 4 and 4a: Char, NameStartChar, NameChar.
#[derive(Clone, Copy)]
pub enum Class {
    Any,
    Start,
    Name,
}
