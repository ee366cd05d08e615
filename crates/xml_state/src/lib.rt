// What the tokenizer keeps between two bytes, and what its parts answer.
#![tactic(auto)]

pub use xml_stack::{the_area, the_refusal};

pub mod class;
pub mod mode;

use class::Class;

// A character of which some bytes stand: its class, how many bytes are to come, its bits so far with zeros behind them, and the
// least code point of its width.
#[derive(Clone, Copy)]
pub struct Part {
    pub class: Class,
    pub left: u8,
    pub low: u32,
    pub least: u32,
}

// The mode behind a byte, and what the byte does, as the bytes of the tables: numbers, since a mode is the index of its row.
#[derive(Clone, Copy)]
pub struct Move {
    pub mode: u8,
    pub act: u8,
}

#[derive(Clone, Copy)]
pub struct State {
    pub mode: u8,
    // behind a reference or other markup
    pub home: u8,
    // behind a character of which some bytes stand, or fixed bytes
    pub then: u8,
    // the next of the fixed bytes
    pub word: u8,
    // where a run, a name, a key, a value, or what stands between marks begins
    pub mark: u32,
    // the tag's name, in an end tag the innermost open element's
    pub name: u32,
    pub long: u32,
    pub key: u32,
    pub wide: u32,
    // attributes before the tag, and in all
    pub first: u32,
    pub kept: u32,
    // the innermost open element's record number + 1
    pub top: u32,
    // events in all
    pub count: u32,
    pub part: Part,
}

// A record that doesn't fit; a byte that no document has here.
#[derive(Clone, Copy)]
pub enum Step {
    Go(State),
    Full,
    Bad,
}

// How many events and attributes stand in the areas; or the refusal's number and byte.
#[derive(Clone, Copy)]
pub enum Tokenized {
    Table(u32, u32),
    Refused(u32, u32),
}
