// The kinds of events, as specs/Kinds.antt has them.
pub const START: u32 = 0;

pub const EMPTY: u32 = 1;

pub const END: u32 = 2;

pub const TEXT: u32 = 3;

pub const CDATA: u32 = 4;

pub const REF: u32 = 5;

pub const OTHER: u32 = 6;

pub const EOF: u32 = 7;

pub const FAULT: u32 = 8;

pub const INDENT: u32 = 9;
