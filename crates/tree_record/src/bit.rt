// The presence bit of each field that may be missing: specs/Bits.antt.
pub const NAME: u32 = 0;

pub const MESSAGE: u32 = 0;

pub const KEY: u32 = 0;

pub const OUT: u32 = 1;

pub const VALUE: u32 = 1;

pub const UUID: u32 = 1;

pub const ERR: u32 = 2;

pub const TIMESTAMP: u32 = 3;

pub const TIME: u32 = 4;

pub const CLASSNAME: u32 = 5;

pub const TYPE: u32 = 5;

pub const ASSERTIONS: u32 = 6;

pub const DESCRIPTION: u32 = 6;

pub const STACK_TRACE: u32 = 7;

pub const DISABLED: u32 = 8;

// A failure or error without runs whose kind is Flaky.
pub const FLAKY: u32 = 9;

pub const HOSTNAME: u32 = 10;
